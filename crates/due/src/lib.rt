// How much data is due, and whether the rows of an image or a pattern fit.
#![tactic(auto)]

mod due;

pub use due::{Image, due_of, pad_of, reads_rows, row_of, rows_fit};
