// The names among the words of the command: of files, and `-` for standard input.
use crate::judging::judged;
use crate::unread::unread;
use answers::read_full;
use asked::{Asked, behind, is_name};
use std::env::FillError;
use std::fs::File;
use std::io;
use std::io::{ErrorKind, Read};
use std::rt::Env;
use tally::{Outcome, Tally, are_several, is_none, status, total, with};

// A file that could not be read, and why.
fn not_read(rt: &HostRuntime, path: &[u8], error: ErrorKind) -> io::Result<Outcome> {
    unread(&rt.stderr(), path, error)?;
    Ok(Outcome::Unread)
}

// The verdict on the job of a name.
fn verdict(rt: &HostRuntime, path: &[u8], job: &[u8], asked: Asked) -> io::Result<Outcome> {
    text::name(rt, path)?;
    if judged(rt, job, asked)? {
        return Ok(Outcome::Passed);
    }
    Ok(Outcome::Refused)
}

// The job that an open file holds.
fn source<R: Read>(
    rt: &HostRuntime,
    input: &mut R,
    path: &[u8],
    asked: Asked,
) -> io::Result<Outcome> {
    let mut job = rooms::job();
    match read_full(input, &mut job) {
        Ok(n) => verdict(rt, path, &job[..n], asked),
        Err(error) => not_read(rt, path, error.kind()),
    }
}

// Standard input.
fn standard(rt: &HostRuntime, asked: Asked) -> io::Result<Outcome> {
    let mut input = rt.stdin();
    source(rt, &mut input, b"standard input", asked)
}

// The file of a name. The system's names are bytes, and those that std opens are text.
fn file(rt: &HostRuntime, path: &[u8], asked: Asked) -> io::Result<Outcome> {
    let Ok(name) = str::from_utf8(path) else {
        return not_read(rt, path, ErrorKind::InvalidFilename);
    };
    match File::open(rt, name) {
        Ok(mut input) => source(rt, &mut input, path, asked),
        Err(error) => not_read(rt, path, error.kind()),
    }
}

// Whether a word is `-`.
fn is_input(word: &[u8]) -> bool {
    if word.len() != 1 {
        return false;
    }
    word[0] == b'-'
}

// The file of a word, or standard input.
fn word(rt: &HostRuntime, path: &[u8], asked: Asked) -> io::Result<Outcome> {
    if is_input(path) {
        return standard(rt, asked);
    }
    file(rt, path, asked)
}

// The file that argument i names, or standard input.
fn argument(rt: &HostRuntime, i: usize, asked: Asked) -> io::Result<Outcome> {
    let mut path = [0u8; 4096];
    match rt.arg(i, &mut path) {
        Ok(n) => word(rt, &path[..n], asked),
        Err(_) => not_read(
            rt,
            b"(a name of over 4,096 bytes)",
            ErrorKind::InvalidFilename,
        ),
    }
}

// Whether there is an argument i.
fn is_there(rt: &HostRuntime, i: usize) -> bool {
    let mut room = [0u8; 1];
    !matches!(rt.arg(i, &mut room), Err(FillError::NotPresent))
}

// How many arguments there are, with the program's own name.
fn count(rt: &HostRuntime) -> usize {
    for i in 0..usize::MAX {
        if !is_there(rt, i) {
            return i;
        }
    }
    usize::MAX
}

// The arguments from the first on, of which there are so many with the program's own name.
fn arguments(rt: &HostRuntime, n: usize) -> io::Result<Tally> {
    let mut t = tally::none();
    let mut asked = asked::nothing();
    for i in 1..n {
        if is_name(rt, i) {
            t = with(t, argument(rt, i, asked)?);
        } else {
            asked = behind(rt, asked, i);
        }
    }
    Ok(t)
}

// What argument i asks for besides, if there are over i.
fn besides(rt: &HostRuntime, asked: Asked, n: usize, i: usize) -> Asked {
    if n <= i {
        return asked;
    }
    behind(rt, asked, i)
}

// With no name, standard input; each of the two words may stand before it.
fn input(rt: &HostRuntime, n: usize) -> io::Result<Tally> {
    let first = besides(rt, asked::nothing(), n, 1);
    let both = besides(rt, first, n, 2);
    Ok(with(tally::none(), standard(rt, both)?))
}

// Judges what the arguments name; of several files the last line is how many pass.
pub fn judge(rt: &HostRuntime) -> io::Result<()> {
    let n = count(rt);
    let t = arguments(rt, n)?;
    if is_none(t) {
        status(rt, input(rt, n)?);
        return Ok(());
    }
    if are_several(t) {
        total(rt, t)?;
    }
    status(rt, t);
    Ok(())
}
