// The operator table: a line for an operator, and a line for each attribute.
#![tactic(auto)]

mod table;

pub use table::{Form, Kind, NO, Row, Rule, is_known, row_of, rule_of};
