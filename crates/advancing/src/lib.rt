// A job from where it stands on, operator by operator, to its end.
#![tactic(auto)]

mod advancing;

pub use advancing::with_tables;
