// The type and the value that an attribute has to have: 15 and 16.
#![tactic(auto)]

mod value;

pub use value::{Attribute, in_range, type_taken};
