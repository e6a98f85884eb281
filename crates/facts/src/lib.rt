// The facts that a refusal is about: of the operator, of the value at the place, and of how matters stand.
#![tactic(auto)]

mod facts;
mod missing;

pub use facts::{Facts, facts_in};
