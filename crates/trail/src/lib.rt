// The way through a job or a motif to a refused operator: where it begins, its attributes, and how matters stand before it.
#![tactic(auto)]

mod stand;
mod walk;

pub use stand::{Phase, Rows, Stand};
pub use walk::{Walk, class_in, setting_in};
