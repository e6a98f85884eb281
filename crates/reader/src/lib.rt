// Reading: bytes to operators. The next operator from a place on, whole and with its data, or the end, or a refusal.
#![tactic(auto)]

mod data;
mod reading;

pub use reading::{Context, Operator, operator_at};
