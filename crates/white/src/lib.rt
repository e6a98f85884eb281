// White space between items, and a byte's being within a range.
#![tactic(auto)]

mod white;

pub use white::{after_white, between, is_white};
