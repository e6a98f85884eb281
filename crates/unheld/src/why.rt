// The cause of 21.
use crate::behind::{Later, look_behind};
use alike::Other;
use facts::Facts;
use listing::Attribute;
use refusal::Code;
use std::io;
use tell::Cause;
use text::say;

// Says that a motif of the name is defined later, at a place.
fn later<P: Print>(out: &P, cause: Cause, s: &[u8], f: Facts, place: usize) -> io::Result<Cause> {
    tell::cause(out, cause, s, f)?;
    say(out, b", at byte ")?;
    text::plain(out, (place % 4_294_967_296) as u32)?;
    Ok(cause)
}

fn later_elsewhere<P: Print>(out: &P, s: &[u8], f: Facts, place: usize) -> io::Result<Cause> {
    let cause = later(out, Cause::LaterElsewhere, s, f, place)?;
    say(out, b", in another session")?;
    Ok(cause)
}

fn told<P: Print>(out: &P, cause: Cause, s: &[u8], f: Facts) -> io::Result<Cause> {
    tell::cause(out, cause, s, f)?;
    Ok(cause)
}

// Says that there is a name that is nearly the same.
fn like<P: Print>(out: &P, job: &[u8], name: Attribute, s: &[u8], f: Facts) -> io::Result<Cause> {
    let cause = told(out, Cause::Own(Code::NotHeld), s, f)?;
    say(out, b"; there is ")?;
    text::part(out, job, name.count as usize, name.first as usize)?;
    Ok(cause)
}

// With no motif of the name later; one before in this session would be held.
fn before<P: Print>(out: &P, job: &[u8], other: Other, s: &[u8], f: Facts) -> io::Result<Cause> {
    match other {
        Other::Here | Other::Nobody => told(out, Cause::Own(Code::NotHeld), s, f),
        Other::Earlier => told(out, Cause::Earlier, s, f),
        Other::Like(name) => like(out, job, name, s, f),
    }
}

// With one later, in another session: one of the name before is nearer.
fn elsewhere<P: Print>(
    out: &P,
    job: &[u8],
    other: Other,
    s: &[u8],
    f: Facts,
    place: usize,
) -> io::Result<Cause> {
    if let Other::Earlier = other {
        return before(out, job, other, s, f);
    }
    later_elsewhere(out, s, f, place)
}

// Of a name.
fn named<P: Print>(
    out: &P,
    job: &[u8],
    list: &[u8],
    records: usize,
    s: &[u8],
    f: Facts,
    name: &[u8],
) -> io::Result<Cause> {
    let other = alike::look_for(job, list, records, name);
    match look_behind(job, list, records, name) {
        Some(Later::Here(place)) => later(out, Cause::Later, s, f, place),
        Some(Later::Elsewhere(place)) => elsewhere(out, job, other, s, f, place),
        None => before(out, job, other, s, f),
    }
}

// Says why the name that the operator of s gives is not held; the answer is the cause, which has its cure.
pub fn cause<P: Print>(
    out: &P,
    job: &[u8],
    list: &[u8],
    records: usize,
    s: &[u8],
    f: Facts,
) -> io::Result<Cause> {
    match s.get(f.name..f.name.saturating_add(f.letters)) {
        Some(name) => named(out, job, list, records, s, f, name),
        None => Ok(Cause::Own(Code::NotHeld)),
    }
}
