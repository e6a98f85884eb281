// The limits of documents 01 and 02.
pub const JOB_MOST: usize = 61_440;

pub const WORK_LEAST: usize = 16_384;

pub const ATTRIBUTES_MOST: usize = 16;

pub const ARRAY_MOST: usize = 1_024;

pub const MOTIFS_MOST: usize = 64;

// Patterns defined at a time, of each persistence.
pub const PATTERNS_MOST: usize = 32;

pub const STORE_MOST: usize = 16_384;

pub const NESTING_MOST: usize = 32;

pub const SAVED_MOST: u32 = 24;

pub const PERFORMED_MOST: u32 = 1_000_000;
