// The refused operator as a line of the list, marked.
#![tactic(auto)]

use std::io;
use text::say;
use trail::Walk;

// Says where the refusal is, if it is not at the operator's own place.
fn refused<P: Print>(out: &P, at: usize, place: usize) -> io::Result<()> {
    if at == place {
        return say(out, b", refused here\n");
    }
    say(out, b", refused at byte ")?;
    number(out, at)?;
    say(out, b"\n")
}

fn number<P: Print>(out: &P, at: usize) -> io::Result<()> {
    text::plain(out, (at % 4_294_967_296) as u32)
}

// The line of the operator of a tag at a place.
fn operator<P: Print>(out: &P, tag: u8, place: usize, at: usize) -> io::Result<()> {
    say(out, b"> ")?;
    phrase::operator(out, tag)?;
    say(out, b" at byte ")?;
    number(out, place)?;
    refused(out, at, place)
}

// The line where no operator is found.
fn nothing<P: Print>(out: &P, at: usize) -> io::Result<()> {
    say(out, b"> refused here, at byte ")?;
    number(out, at)?;
    say(out, b"\n")
}

// The line of the operator at a place, or with a value there.
fn found<P: Print>(out: &P, job: &[u8], at: usize) -> io::Result<()> {
    let mut walk = Walk::of_job(job);
    walk.come_to(at);
    match walk.tag {
        Some(tag) => operator(out, tag, walk.place, at),
        None => nothing(out, at),
    }
}

// The line of the operator that is refused by a code at a place of the job, or by a value there; of the place alone if there is none, as with 1 to 4.
pub fn line<P: Print>(out: &P, job: &[u8], code: u32, at: usize) -> io::Result<()> {
    if code <= 4 {
        return nothing(out, at);
    }
    found(out, job, at)
}
