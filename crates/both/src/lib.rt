// The two runs of a motif's operators while it is being read, and what they come to.
#![tactic(auto)]

pub mod both;
