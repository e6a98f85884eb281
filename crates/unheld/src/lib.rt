// Why a name is not held: the cause of 21.
#![tactic(auto)]

mod behind;
mod why;

pub use why::cause;
