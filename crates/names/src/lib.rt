// What documents 01 and 02 give a name or a number: operators' tags, attributes' numbers, limits. The definitions have them in scope/specs/Names.antt.
#![tactic(auto)]

pub mod attributes;
pub mod limits;
pub mod operators;
