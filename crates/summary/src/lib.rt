// What a balanced row of operators comes to, and the same as one number.
#![tactic(auto)]

mod summary;

pub use summary::{EMPTY, Ending, Summary, unpacked};
