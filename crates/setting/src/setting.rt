// What is settled before the first item of a job, and goes wherever a byte is read.

// The protocol's class: 1;1 or 2;1.
#[derive(Clone, Copy, PartialEq, Eq)]
pub enum Class {
    One,
    Two,
}

// The class and whether the high byte comes first, by the header; and whether pages start in gray, as the caller asks.
#[derive(Clone, Copy)]
pub struct Setting {
    pub class: Class,
    pub high: bool,
    pub gray: bool,
}
