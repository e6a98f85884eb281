// Runs of operators that are their tag alone and of lines by their end point.
#![tactic(auto)]

mod running;

pub use running::run_on;
