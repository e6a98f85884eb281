// From the table of held motifs: the nearest ring of calls that a call comes to, and the nearest motif that names one not held.
#![tactic(auto)]

mod near;
mod toward;

pub use near::{Ring, lacking, ring_from};
pub use toward::Way;
