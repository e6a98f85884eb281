// Numbers read from a value's bytes: whole ones, and reals by their bits.
#![tactic(auto)]

mod reading;

pub use reading::{Numbers, long_at, numbers_at, whole};
