// A fault of a call that lies in the motifs that it comes to: it is searched for, and told.
#![tactic(auto)]

mod called;

pub use called::of_call;
