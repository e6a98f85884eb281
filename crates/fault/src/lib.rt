// A fault of a job or of a motif: its cause and its cure.
#![tactic(auto)]

use facts::Facts;
use names::attributes::{BLOCK_BYTE_LENGTH, MEDIA_TYPE, PAD_BYTES_MULTIPLE};
use refusal::Code;
use setting::Class;
use std::io;
use tell::{Cause, Cure};
use text::{number, say};
use trail::Walk;

// An attribute of class 2;1 stands in a job of class 1;1.
fn is_of_two(class: Class, number: usize) -> bool {
    matches!(class, Class::One)
        && [MEDIA_TYPE, PAD_BYTES_MULTIPLE, BLOCK_BYTE_LENGTH]
            .iter()
            .any(|&of_two| number == of_two as usize)
}

// The cause of a code at a place, once its operator is known.
fn cause_at(code: Code, walk: &Walk, at: usize, f: Facts) -> Cause {
    match code {
        Code::Header => tell::header_cause(walk.s, at),
        Code::NoAttribute if is_of_two(f.class, f.number) => Cause::AttributeOfTwo,
        Code::Missing if f.missing != 0 => Cause::AttributeMissing,
        Code::NoPattern => why::undefined(walk.s, at, f.pattern),
        _ => why::cause_of(code, walk),
    }
}

// The code and the cure.
pub fn ending<P: Print>(out: &P, s: &[u8], cure: Cure, code: Code, f: Facts) -> io::Result<()> {
    say(out, b" (code ")?;
    number(out, code.number())?;
    say(out, b") -- ")?;
    tell::cure(out, cure, s, f)
}

// Says the cause of a refusal; the answer is its cure, which for 9 depends on how matters stand.
fn caused<P: Print>(
    out: &P,
    job: &[u8],
    list: &[u8],
    records: usize,
    walk: &Walk,
    cause: Cause,
    f: Facts,
) -> io::Result<Cure> {
    if let Cause::Own(Code::NotHeld) = cause {
        let unheld = unheld::cause(out, job, list, records, walk.s, f)?;
        return Ok(Cure::Of(unheld));
    }
    tell::cause(out, cause, walk.s, f)?;
    Ok(match cause {
        Cause::Own(Code::NoOperator) => why::may_come(walk),
        _ => Cure::Of(cause),
    })
}

// Says what is wrong at a place of the job, and the cure.
pub fn of_job<P: Print>(
    out: &P,
    job: &[u8],
    list: &[u8],
    records: usize,
    code: Code,
    at: usize,
) -> io::Result<()> {
    let mut walk = Walk::of_job(job);
    walk.come_to(at);
    let f = facts::facts_in(&walk, at);
    let cause = cause_at(code, &walk, at, f);
    let cure = caused(out, job, list, records, &walk, cause, f)?;
    ending(out, job, cure, code, f)
}

// Says what is wrong at a place of the motif that was defined last, of which these are the bytes, and the cure.
pub fn of_motif<P: Print>(
    out: &P,
    job: &[u8],
    list: &[u8],
    records: usize,
    motif: &[u8],
    code: Code,
    at: usize,
) -> io::Result<()> {
    let mut walk = Walk::of_motif(motif);
    walk.come_to(at);
    let f = facts::facts_in(&walk, at);
    let cause = cause_at(code, &walk, at, f);
    let cure = caused(out, job, list, records, &walk, cause, f)?;
    say(out, b", in the motif ")?;
    listing::say_name(out, job, list, records)?;
    say(out, b" at its byte ")?;
    text::plain(out, f.at)?;
    ending(out, motif, cure, code, f)
}
