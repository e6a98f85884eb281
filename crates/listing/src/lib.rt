// A job's list of records: its fields, its operators as lines, and the motif that was defined last.
#![tactic(auto)]

mod inside;
mod operators;
mod records;

pub use inside::{gather, say_name};
pub use operators::line;
pub use records::{Attribute, Operator, Record, attribute_at, operator_at, record_at};
