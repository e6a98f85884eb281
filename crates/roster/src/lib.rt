// A job's list as lines, with the motifs that each session holds at its end.
#![tactic(auto)]

mod shown;

pub use shown::lines;
