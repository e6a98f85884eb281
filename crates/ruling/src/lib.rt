// The rules after reading but for the list.
#![tactic(auto)]

mod judging;

pub use judging::{inner_of, judge};
