// The page: its state, what an operator needs of it and does to it.
#![tactic(auto)]

pub mod page;
