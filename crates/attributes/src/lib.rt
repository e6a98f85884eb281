// An operator's attributes as they were read: which are there, their values, their bytes.
#![tactic(auto)]

mod attributes;

pub use attributes::{Part, at_most, has, is_given, long_in, part_in, value_in};
