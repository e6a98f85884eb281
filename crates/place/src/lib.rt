// Where a job stands between its operators.
#![tactic(auto)]

mod place;

pub use place::{Busy, Place, opened_in, page_in, phase_of};
