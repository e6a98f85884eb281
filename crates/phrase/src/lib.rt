// What stands in a job, in words: operators, attributes, types and values.
#![tactic(auto)]

mod called;
mod kinds;
mod values;

pub use called::{attribute, operator};
pub use kinds::kind;
pub use values::{after, signed, value};
