// How many files pass, are refused, or could not be read.
#![tactic(auto)]

use std::fs::OpenOptions;
use std::io::Write;
use std::rt::Files;
use std::{fs, io};
use text::{number, say};

// Descriptor 3 by its path.
const STATUS: &str = "/dev/fd/3";

// What became of a file.
#[derive(Clone, Copy)]
pub enum Outcome {
    Passed,
    Refused,
    Unread,
}

// How many files came to each.
#[derive(Clone, Copy, PartialEq, Eq)]
pub struct Tally {
    pub passed: u32,
    pub refused: u32,
    pub unread: u32,
}

// Before the first file.
pub fn none() -> Tally {
    Tally {
        passed: 0,
        refused: 0,
        unread: 0,
    }
}

// One more; past a million it stays.
fn more(n: u32) -> u32 {
    n.saturating_add(1).min(1_000_000)
}

// The tally with a file more.
pub fn with(t: Tally, outcome: Outcome) -> Tally {
    match outcome {
        Outcome::Passed => Tally {
            passed: more(t.passed),
            ..t
        },
        Outcome::Refused => Tally {
            refused: more(t.refused),
            ..t
        },
        Outcome::Unread => Tally {
            unread: more(t.unread),
            ..t
        },
    }
}

// No file was named.
pub fn is_none(t: Tally) -> bool {
    t == none()
}

// More than one file was named.
pub fn are_several(t: Tally) -> bool {
    1 < u64::from(t.passed) + u64::from(t.refused) + u64::from(t.unread)
}

// The last line of several files.
pub fn total<P: Print>(out: &P, t: Tally) -> io::Result<()> {
    number(out, t.passed)?;
    say(out, b" pass, ")?;
    number(out, t.refused)?;
    say(out, b" refused")?;
    if t.unread != 0 {
        say(out, b", ")?;
        number(out, t.unread)?;
        say(out, b" not read")?;
    }
    say(out, b"\n")
}

// The status for whoever started the program, as one digit on descriptor 3: 2 if a file was not read, 1 if one is refused, 0 if all pass.
pub fn status<R: Files>(rt: &R, t: Tally) {
    let digit = if t.unread != 0 {
        b'2'
    } else if t.refused != 0 {
        b'1'
    } else {
        b'0'
    };
    hand_on(rt, digit);
}

// A digit on descriptor 3; where that is not open for writing, or takes none, nothing.
fn hand_on<R: Files>(rt: &R, digit: u8) {
    if !is_writable(rt, STATUS) {
        return;
    }
    if let Ok(mut to) = OpenOptions::new().append(true).open(rt, STATUS) {
        let _ = to.write_all(&[digit]);
    }
}

// Whether the descriptor of a path is open for writing: the link that stands for it has a bit that says so.
fn is_writable<R: Files>(rt: &R, path: &str) -> bool {
    fs::symlink_metadata(rt, path).is_ok_and(|link| !link.permissions().readonly())
}
