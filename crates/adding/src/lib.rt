// EndStream under a new name: a valid motif becomes held as the last one.
#![tactic(auto)]

mod adding;

pub use adding::added;
