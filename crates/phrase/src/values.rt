// The values of attributes, as numbers where they are short.
use crate::kinds::kind;
use number::{Width, number_at};
use std::io;
use text::{number, real, say};

// The place k bytes on; a place that no job has stays as it is.
pub fn after(at: usize, k: usize) -> usize {
    if 1_000_000 < at || 1_000_000 < k {
        return at;
    }
    at + k
}

// Says a sint16 by its two bytes.
pub fn signed<P: Print>(out: &P, n: u32) -> io::Result<()> {
    if n < 32_768 {
        return number(out, n);
    }
    if n < 65_536 {
        say(out, b"-")?;
        number(out, 65_536 - n)?;
    }
    Ok(())
}

// Says the number at a place, by the tag of its type, and answers the place behind it.
fn one<P: Print>(out: &P, s: &[u8], high: bool, tag: u8, at: usize) -> io::Result<usize> {
    match tag % 8 {
        0 => {
            number(out, number_at(s, at, Width::One, high))?;
            Ok(after(at, 1))
        }
        1 => {
            number(out, number_at(s, at, Width::Two, high))?;
            Ok(after(at, 2))
        }
        2 => {
            number(out, number_at(s, at, Width::Four, high))?;
            Ok(after(at, 4))
        }
        3 => {
            signed(out, number_at(s, at, Width::Two, high))?;
            Ok(after(at, 2))
        }
        _ => {
            real(out, number_at(s, at, Width::Four, high))?;
            Ok(after(at, 4))
        }
    }
}

// Says so many numbers of a type, the first at a place.
fn numbers<P: Print>(out: &P, s: &[u8], tag: u8, count: u32, first: usize) -> io::Result<()> {
    let high = number::byte_at(s, 0) == 0x28;
    let mut at = first;
    for i in 0..count {
        if i != 0 {
            say(out, b" ")?;
        }
        at = one(out, s, high, tag, at)?;
    }
    Ok(())
}

// Whether a value is said by its numbers: few, and of a type that an attribute takes.
fn is_short(tag: u8, count: u32) -> bool {
    count <= 16 && matches!(tag % 8, 0..=3 | 5)
}

// Says the value of so many numbers, whose first stands at a place.
pub fn value<P: Print>(out: &P, s: &[u8], tag: u8, count: u32, first: usize) -> io::Result<()> {
    if is_short(tag, count) {
        return numbers(out, s, tag, count, first);
    }
    kind(out, tag)?;
    say(out, b", ")?;
    number(out, count)?;
    say(out, b" long")
}
