// Rows of numbers of patterns, as they are read: how many a row has, whether a number is in it, and whether one of it is not defined.
#![tactic(auto)]

mod rows;

pub use rows::{
    NUMBERS_MOST, OWN, PAGE, ROW, SELECTING, SESSION, count, has, is_defined, lacks, selecting,
};
