// The types of values.
use std::io;

// How many numbers a type has, by its tag.
fn many(tag: u8) -> Option<&'static str> {
    match tag / 8 {
        0x18 => Some(""),
        0x19 => Some("array of "),
        0x1a => Some("two "),
        0x1c => Some("four "),
        _ => None,
    }
}

// Of which kind they are.
fn each(tag: u8) -> Option<&'static str> {
    match tag % 8 {
        0 => Some("ubyte"),
        1 => Some("uint16"),
        2 => Some("uint32"),
        3 => Some("sint16"),
        4 => Some("sint32"),
        5 => Some("real32"),
        _ => None,
    }
}

// Says the type of a value by its tag.
pub fn kind<P: Print>(out: &P, tag: u8) -> io::Result<()> {
    if let (Some(many), Some(each)) = (many(tag), each(tag)) {
        print!(out; "{many}{each}")?;
    }
    Ok(())
}
