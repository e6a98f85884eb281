// The checker: one call judges one job.
#![tactic(auto)]

mod entry;

pub use entry::{check, dieuvakhop_check};
