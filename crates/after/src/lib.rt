// Where a job stands after an operator that no rule refuses.
#![tactic(auto)]

mod after;
mod hatching;

pub use after::{Passed, place_after};
