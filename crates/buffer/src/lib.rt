// Writes to a lent buffer: bytes are copied to the front of a part, blocks are joined to those held, the work buffer is zeroed.
#![tactic(auto)]

mod copying;
mod joining;
mod zeroing;

pub use copying::copy;
pub use joining::join;
pub use zeroing::zero;
