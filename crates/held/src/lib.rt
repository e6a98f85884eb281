// The motifs of a table in words: the name of each, and a line that tells it.
#![tactic(auto)]

mod held;
mod named;

pub use held::motifs_held;
pub use named::name_of;
