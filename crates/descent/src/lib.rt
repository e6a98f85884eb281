// From a refused call down through the motifs to the operator that breaks the rule of its code.
#![tactic(auto)]

mod before;
mod breach;

pub use before::{Before, before_call};
pub use breach::breach_in;
