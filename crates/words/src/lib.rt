// The names of 01's operators and attributes: which tag and which number each of them has.
#![tactic(auto)]

mod called;

pub use called::{AttributeName, OperatorName, attribute_of, operator_of};
