// What the table asks of an operator's attributes, in words.
#![tactic(auto)]

use names::operators::{READ_IMAGE, READ_RAST_PATTERN, SET_BRUSH_SOURCE, SET_PEN_SOURCE};
use phrase::{attribute, operator};
use setting::Class;
use std::io;
use table::Kind;
use text::{number, say};

fn ubyte<P: Print>(out: &P, low: usize, high: usize) -> io::Result<()> {
    say(out, b" takes a ubyte, ")?;
    from_to(out, low, high)
}

fn array<P: Print>(out: &P, low: usize, high: usize) -> io::Result<()> {
    say(out, b" takes an array of ubyte, its length ")?;
    from_to(out, low, high)
}

fn from_to<P: Print>(out: &P, low: usize, high: usize) -> io::Result<()> {
    number(out, (low % 65_536) as u32)?;
    say(out, b" to ")?;
    number(out, (high % 65_536) as u32)
}

// A whole number; where it can be 1 alone it is the number of copies.
fn whole<P: Print>(out: &P, low: usize, high: usize) -> io::Result<()> {
    if high == 1 {
        return say(
            out,
            b" takes 1 only, as the arm draws one sheet: take it out, or send 1",
        );
    }
    from(out, b" takes a ubyte or uint16", low)
}

fn from<P: Print>(out: &P, text: &[u8], low: usize) -> io::Result<()> {
    say(out, text)?;
    if low == 1 {
        say(out, b", not 0")?;
    }
    Ok(())
}

// The values of a kind, from the lowest to the highest.
fn values<P: Print>(out: &P, kind: Kind, low: usize, high: usize) -> io::Result<()> {
    match kind {
        Kind::E => ubyte(out, low, high),
        Kind::N => whole(out, low, high),
        Kind::P => say(out, b" takes two ubyte, uint16, sint16 or finite real32"),
        Kind::B => say(out, b" takes four ubyte, uint16 or sint16"),
        Kind::A => array(out, low, high),
        Kind::D => say(
            out,
            b" takes two uint16, not 0, or two finite real32 above zero",
        ),
        Kind::M => say(out, b" takes a ubyte, 0 to 12 or 14 to 16"),
        Kind::M2 => say(
            out,
            b" takes a ubyte, 0 to 21 or 96, or a name of 1 to 1,024 bytes",
        ),
        Kind::L => say(out, b" takes a ubyte, uint16 or uint32"),
        Kind::I => say(out, b" takes a sint16"),
    }
}

// The values that an attribute takes in a class.
pub fn takes<P: Print>(out: &P, class: Class, n: usize) -> io::Result<()> {
    let rule = table::rule_of(class, (n % 256) as u8);
    attribute(out, n)?;
    values(out, rule.kind, rule.low, rule.high)
}

// Says the attributes that an operator takes in a class.
pub fn all_of<P: Print>(out: &P, class: Class, tag: u8) -> io::Result<()> {
    let row = table::row_of(class, tag);
    operator(out, tag)?;
    say(out, b" takes ")?;
    let mut before = false;
    for n in row.numbers {
        if n != table::NO {
            if before {
                say(out, b", ")?;
            }
            attribute(out, usize::from(n))?;
            before = true;
        }
    }
    if !before {
        say(out, b"no attribute")?;
    }
    Ok(())
}

// Of ReadImage and ReadRastPattern.
fn rows_of<P: Print>(out: &P, class: Class) -> io::Result<()> {
    say(
        out,
        b"let StartLine be the rows so far, and send no more rows than SourceHeight",
    )?;
    if let Class::Two = class {
        say(
            out,
            b"; let BlockByteLength, if it is there, be the length of the data",
        )?;
    }
    Ok(())
}

// Says what an operator with a choice of attributes may have in a class.
pub fn choice<P: Print>(out: &P, class: Class, tag: u8) -> io::Result<()> {
    match tag {
        SET_BRUSH_SOURCE => say(
            out,
            b"give one of RGBColor, GrayLevel, NullBrush and PatternSelectID",
        ),
        SET_PEN_SOURCE => say(out, b"give one of RGBColor, GrayLevel and NullPen"),
        READ_IMAGE | READ_RAST_PATTERN => rows_of(out, class),
        _ => say(out, b"give EndPoint alone, or NumberOfPoints and PointType"),
    }
}
