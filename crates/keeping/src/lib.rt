// The motifs held on the way through a job.
#![tactic(auto)]

mod held;
mod motifs;

pub use held::Keeping;
pub use motifs::Motifs;
