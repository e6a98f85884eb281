// Why a job is refused, and what to change, as sentences with gaps that facts fill.
#![tactic(auto)]

mod causes;
mod codes;
mod cures;
mod end;
mod kinds;
mod order;
mod sentence;

pub use causes::Cause;
pub use codes::code_of;
pub use cures::Cure;
pub use end::End;
pub use kinds::{Kind, header_cause};
pub use order::Order;
pub use sentence::{cause, cure};
