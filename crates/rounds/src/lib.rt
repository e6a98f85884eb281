// Levels by rounds: within how many a motif nests, from whom it calls and what level each of those has.
#![tactic(auto)]

mod rounds;

pub use rounds::{level_of, next};
