// One operator of a motif that is judged when EndStream holds it: where the judging stands behind it, or how it has ended.
#![tactic(auto)]

mod inside;

pub use inside::{Inside, Made, advance};
