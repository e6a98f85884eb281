// EndStream: a valid motif becomes held, or replaces the one that its name holds.
#![tactic(auto)]

mod holding;
mod replacing;

pub use holding::hold;
