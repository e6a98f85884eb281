// A motif judged when EndStream holds it, and what it comes to, so that its calls are judged without drawing it.
#![tactic(auto)]

mod judging;
mod lines;

pub use judging::{judge_motif, judge_noting};
