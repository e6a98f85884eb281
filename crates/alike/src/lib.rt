// Names of motifs that a job has defined, by its records, next to a name that is looked for.
#![tactic(auto)]

mod likeness;
mod search;

pub use search::{Other, look_for};
