// The table's marks, levels and summaries made anew, from the bytes of the motifs.
#![tactic(auto)]

mod settling;

pub use settling::remake;
