// A call judged from the table of held motifs alone: no motif's bytes, and rounds over the rows.
#![tactic(auto)]

mod bare;
mod calls;
mod why;

pub use calls::{Called, call_of};
