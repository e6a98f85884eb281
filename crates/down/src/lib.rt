// The way that a call goes from motif to motif, and what each operator on it does.
#![tactic(auto)]

mod call;
mod motifs;

pub use call::{called, performed};
pub use motifs::{Breach, down, lacking};
