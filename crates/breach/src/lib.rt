// What is told of a call that is refused for what lies in its motifs.
#![tactic(auto)]

mod named;
mod ring;
mod told;

pub use told::{of_bare, of_breach, of_lacking, of_ring};
