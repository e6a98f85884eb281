// What an operator needs of the page and does to it.
#![tactic(auto)]

mod act;

pub use act::{act_of, is_plain, needs_cursor};
