// The held motifs: their table, and how a name finds its row.
#![tactic(auto)]

mod column;
mod held;
mod kept;

pub use column::enter;
pub use held::{CALLS, LENGTH, LEVEL, MISSING, ORDER, ROW, START, SUM, find, in_use};
pub use kept::Kept;
