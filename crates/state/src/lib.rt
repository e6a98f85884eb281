// Where the judging of a job stands, and the verdict it ends with.
#![tactic(auto)]

mod ending;
mod state;
mod verdict;

pub use ending::{end_code, is_over, stop};
pub use state::State;
pub use verdict::{OUTER, Verdict, told};
