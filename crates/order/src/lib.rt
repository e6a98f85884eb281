// What may come where, and the image or pattern that is open.
#![tactic(auto)]

mod order;
mod picture;

pub use order::{Phase, may_come};
pub use picture::{Hatch, Picture, hatch_of, picture_after, unpacked};
