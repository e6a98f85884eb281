// Bytes one by one, and numbers of one, two and four bytes in either byte order.
#![tactic(auto)]

mod number;

pub use number::{Width, byte_at, bytes_of, number_at};
