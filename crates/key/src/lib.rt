// Names of motifs: the name that an operator gives, a name as three numbers; and 64 marks as one number.
#![tactic(auto)]

mod key;
mod marks;
mod part;

pub use key::{Key, key_of};
pub use marks::{has_mark, with_mark};
pub use part::name_in;
