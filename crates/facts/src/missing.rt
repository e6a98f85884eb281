// The attribute that an operator lacks.
use setting::Class;
use table::Form;
use trail::Walk;

// The first attribute that the operator of a tag must have in a class and has not; none if it has a choice.
pub fn missing(class: Class, tag: u8, walk: &Walk) -> Option<u8> {
    let row = table::row_of(class, tag);
    match row.form {
        Form::Each(many) => row
            .numbers
            .iter()
            .take(many)
            .copied()
            .find(|&n| !walk.has(n)),
        Form::One | Form::Line | Form::Unknown => None,
    }
}
