// The items before an operator's tag: values and attribute numbers, pair by pair.
#![tactic(auto)]

mod pair;
mod scan;
mod value;

pub use scan::{Tagged, scan_at};
