// While a motif is read: ReadStream joins its blocks, EndStream makes it held.
#![tactic(auto)]

mod gathering;

pub use gathering::{Stream, reading_after};
