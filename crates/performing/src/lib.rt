// One operator of a job that was read: judged, listed and performed.
#![tactic(auto)]

mod performing;

pub use performing::perform;
