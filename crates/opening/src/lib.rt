// What opens a job: operators that begin and end sessions and open and close their sources.
#![tactic(auto)]

mod opening;

pub use opening::open_on;
