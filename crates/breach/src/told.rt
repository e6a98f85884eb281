// The operator, name or ring that a call comes to and by which it is refused, and the cure.
use crate::named::{by_call, name};
use crate::ring;
use down::Breach;
use facts::facts_in;
use fault::ending;
use keeping::Motifs;
use refusal::Code;
use rings::Ring;
use std::io;
use tell::{Cause, Cure};
use text::say;
use trail::Walk;

// The cure for an operator of a motif that is called.
fn cure_in(code: Code) -> Cure {
    match code {
        Code::Saved => Cure::Saves,
        Code::Cursor => Cure::LacksCursor,
        Code::Colour => Cure::LacksColour,
        _ => Cure::Of(Cause::Own(code)),
    }
}

// Says what is wrong at the operator of a motif, which the call of a motif comes to, and the cure.
pub fn of_breach<P: Print>(
    out: &P,
    motifs: Motifs,
    called: usize,
    breach: &Breach,
    code: Code,
) -> io::Result<()> {
    let motif = breach.walk.s;
    let f = facts_in(&breach.walk, breach.walk.place);
    tell::cause(out, Cause::Own(code), motif, f)?;
    say(out, b", in the motif ")?;
    name(out, motifs, breach.row)?;
    say(out, b" at its byte ")?;
    text::plain(out, f.at)?;
    by_call(out, motifs, breach.row, called)?;
    ending(out, motif, cure_in(code), code, f)
}

// Of 21: says which name is not held, the motif that calls it, and the cure.
pub fn of_lacking<P: Print>(
    out: &P,
    job: &[u8],
    list: &[u8],
    records: usize,
    motifs: Motifs,
    called: usize,
    breach: &Breach,
) -> io::Result<()> {
    let motif = breach.walk.s;
    let f = facts_in(&breach.walk, breach.walk.place);
    let cause = unheld::cause(out, job, list, records, motif, f)?;
    say(out, b"; the motif ")?;
    name(out, motifs, breach.row)?;
    say(out, b" calls ")?;
    text::part(out, motif, f.letters, f.name)?;
    say(out, b" at its byte ")?;
    text::plain(out, f.at)?;
    by_call(out, motifs, breach.row, called)?;
    ending(out, motif, Cure::Of(cause), Code::NotHeld, f)
}

// Of 34: says which pattern is not defined and why at the place of the call, the motif that selects it, and the cure.
pub fn of_bare<P: Print>(
    out: &P,
    job: &[u8],
    at: usize,
    motifs: Motifs,
    called: usize,
    breach: &Breach,
) -> io::Result<()> {
    let motif = breach.walk.s;
    let f = facts_in(&breach.walk, breach.walk.place);
    let cause = why::undefined(job, at, f.pattern);
    tell::cause(out, cause, motif, f)?;
    say(out, b"; the motif ")?;
    name(out, motifs, breach.row)?;
    say(out, b" selects it at its byte ")?;
    text::plain(out, f.at)?;
    by_call(out, motifs, breach.row, called)?;
    ending(out, motif, Cure::Of(cause), Code::NoPattern, f)
}

// Of 32: says the ring that the call at which a walk stands comes to, and the cure.
pub fn of_ring<P: Print>(
    out: &P,
    walk: &Walk,
    motifs: Motifs,
    called: usize,
    ring: &Ring,
) -> io::Result<()> {
    let f = facts_in(walk, walk.place);
    let cure = ring::told(out, motifs, ring)?;
    by_call(out, motifs, ring.first, called)?;
    ending(out, walk.s, cure, Code::Ring, f)
}
