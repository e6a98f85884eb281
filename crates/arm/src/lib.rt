// The arm in a page: what is seen on the way, and calls judged from what their motif comes to.
#![tactic(auto)]

pub mod moved;
pub mod seen;
