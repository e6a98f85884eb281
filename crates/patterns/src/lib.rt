// Numbers of patterns as they are written in their rows: those that are defined, and those that motifs select.
#![tactic(auto)]

mod known;
mod lists;
mod own;

pub use known::{clear, is_known, learn};
pub use lists::{define, take_own};
pub use own::{keep, note};
