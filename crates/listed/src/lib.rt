// The list gets its records: for an operator one for each of its attributes, then its own.
#![tactic(auto)]

mod listing;

pub use listing::{list_alone, list_one, list_operator};
