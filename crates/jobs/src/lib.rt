// Jobs with their verdicts, lists and deeds proved by computing, and the theorems of scope seen at jobs. There is no code here: see proofs/.
#![tactic(auto)]
