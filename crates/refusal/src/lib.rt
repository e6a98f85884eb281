// Why a job or a motif is refused, and at which byte.
#![tactic(auto)]

mod code;
mod refusal;

pub use code::Code;
pub use refusal::Refusal;
