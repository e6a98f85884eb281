// Names of files and motifs, so that no byte of them steers a terminal.
ghost use Rattle.std.specs.Prelude.{◌<◌, IfOk, length};

use std::io;

// A byte after the first of a letter in UTF-8.
fn is_tail(b: u8) -> bool {
    matches!(b, 0x80..=0xbf)
}

// Two bytes begin a letter of three: not a longer form of a shorter one, not the marks that turn the direction of writing.
fn begins_three(a: u8, b: u8) -> bool {
    match a {
        0xe0 => matches!(b, 0xa0..=0xbf),
        0xe2 => matches!(b, 0x82..=0xbf),
        0xe1 | 0xe3..=0xec => is_tail(b),
        _ => false,
    }
}

// How many bytes at the start are a letter that is printed as it is; 0 if the first byte begins none.
// Of two bytes they begin from 0xc3 on, since 0xc2 begins the further control characters.
fn letter(s: &[u8]) -> usize {
    match s {
        [0x20..=0x7e, ..] => 1,
        [0xc3..=0xd7, b, ..] if is_tail(*b) => 2,
        [a, b, c, ..] if begins_three(*a, *b) && is_tail(*c) => 3,
        _ => 0,
    }
}

// Says what a name begins with: a letter as it is, any other byte as its number. The answer is the rest.
fn glyph<'a, P: Print>(out: &P, name: &'a [u8]) -> io::Result<&'a [u8]>
    ensures { 0 < length name.now → IfOk result (λ rest. length rest.now < length name.now) }
{
    let Some((first, rest)) = name.split_first() else {
        return Ok(name);
    };
    let Some((letter, behind)) = name.split_at_checked(letter(name)) else {
        return Ok(rest);
    };
    if letter.is_empty() {
        print!(out; "\\x{first:02x}")?;
        return Ok(rest);
    }
    out.write_all(letter)?;
    Ok(behind)
}

// Says a name: letters as they are, any other byte as its number.
pub fn name<P: Print>(out: &P, s: &[u8]) -> io::Result<()> {
    let mut rest = s;
    while !rest.is_empty() {
        rest = glyph(out, rest)?;
    }
    Ok(())
}

// Says the name of so many bytes from a place on, in quotes.
pub fn part<P: Print>(out: &P, s: &[u8], count: usize, first: usize) -> io::Result<()> {
    out.write_all(b"'")?;
    if let Some(behind) = s.get(first..) {
        if let Some(named) = behind.get(..count) {
            name(out, named)?;
        }
    }
    out.write_all(b"'")
}
