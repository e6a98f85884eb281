// Words, numbers, reals and names, on standard output or whatever else prints.
#![tactic(auto)]

mod named;
mod out;
mod reals;

pub use named::{name, part};
pub use out::{byte, many, number, plain, say};
pub use reals::real;
