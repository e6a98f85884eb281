// A job, operator by operator.
#![tactic(auto)]

mod stepping;

pub use stepping::judge_items;
