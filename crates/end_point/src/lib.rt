// A line by its end point, with nothing between its items: where its operator stands.
#![tactic(auto)]

mod end_point;

pub use end_point::line_to;
