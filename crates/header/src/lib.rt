// The header of a job or a motif.
#![tactic(auto)]

mod header;

pub use header::{Header, header_of};
