// The rules of motifs and their names, and of places for patterns: 19, 33, those of a motif that EndStream holds, 21, 32 and 22.
#![tactic(auto)]

mod early;
mod hatching;

pub use early::{Early, early_of};
