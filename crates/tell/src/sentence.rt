// A sentence with gaps: a percent sign and a letter stand for a fact.
use crate::causes::Cause;
use crate::cures::Cure;
use facts::Facts;
use std::io;
use text::number;

// For what a pattern is defined.
fn lasting<P: Print>(out: &P, session: bool) -> io::Result<()> {
    if session {
        text::say(out, b"session")
    } else {
        text::say(out, b"page")
    }
}

// Says the fact of a letter.
fn fact<P: Print>(out: &P, s: &[u8], f: Facts, letter: u8) -> io::Result<()> {
    match letter {
        b'a' => phrase::attribute(out, f.number),
        b'b' => text::byte(out, f.byte),
        b'c' => takes::choice(out, f.class, f.tag),
        b'h' => text::many(out, f.height, b"row"),
        b'k' => takes::all_of(out, f.class, f.tag),
        b'l' => lasting(out, f.lasting),
        b'm' => phrase::attribute(out, f.missing),
        b'n' => phrase::signed(out, f.pattern),
        b'o' => phrase::operator(out, f.tag),
        b'p' => text::plain(out, f.at),
        b'q' => takes::takes(out, f.class, f.missing),
        b'r' => takes::takes(out, f.class, f.number),
        b's' => text::many(out, f.saved, b"state"),
        b't' => phrase::kind(out, f.byte),
        b'u' => text::part(out, s, f.letters, f.name),
        b'v' => phrase::value(out, s, f.byte, f.count, f.first),
        b'w' => number(out, f.rows),
        b'x' => text::many(out, f.asked, b"byte"),
        _ => number(out, f.told),
    }
}

// Says words, their gaps filled with the facts; names and values stand in s.
fn sentence<P: Print>(out: &P, words: &str, s: &[u8], f: Facts) -> io::Result<()> {
    let mut gap = false;
    for b in words.as_bytes() {
        if gap {
            fact(out, s, f, *b)?;
            gap = false;
        } else if *b == b'%' {
            gap = true;
        } else {
            text::say(out, &[*b])?;
        }
    }
    Ok(())
}

// Says why a job or a motif is refused.
pub fn cause<P: Print>(out: &P, cause: Cause, s: &[u8], f: Facts) -> io::Result<()> {
    sentence(out, cause.sentences().0, s, f)
}

// Says what to change.
pub fn cure<P: Print>(out: &P, cure: Cure, s: &[u8], f: Facts) -> io::Result<()> {
    sentence(out, cure.sentence(), s, f)
}
