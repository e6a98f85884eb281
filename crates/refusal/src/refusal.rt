// A refusal: the rule that is broken, and where.
use crate::code::Code;

// The code of the rule, and the byte at which it is broken.
#[derive(Clone, Copy, Debug, PartialEq, Eq)]
pub struct Refusal {
    pub code: Code,
    pub place: usize,
}
