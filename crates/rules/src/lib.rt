// The rules on an operator's attributes: 11, 12, 15, 16 of each, then 13 and 14 of all together.
#![tactic(auto)]

mod judge;
mod line;

pub use judge::line_fault;
