// What a job is read with.
#![tactic(auto)]

mod setting;

pub use setting::{Class, Setting};
