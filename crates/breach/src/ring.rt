// A ring of motifs, told by their names.
use crate::named::name;
use keeping::Motifs;
use refusal::Code;
use rings::Ring;
use std::io;
use tell::{Cause, Cure};
use text::say;

// The most motifs that a ring is told by.
const RING_MOST: usize = 32;

// The row that a motif of a ring calls.
fn next_of(ring: &Ring, row: usize) -> Option<usize> {
    match ring.ways.get(row) {
        Some(Some(way)) => Some(way.next),
        _ => None,
    }
}

// What stands before a call of a ring but the first: the last one is told behind an `and`.
fn between<P: Print>(out: &P, is_last: bool) -> io::Result<()> {
    if is_last {
        say(out, b", and ")
    } else {
        say(out, b", ")
    }
}

// One call.
fn call<P: Print>(out: &P, motifs: Motifs, from: usize, to: usize) -> io::Result<()> {
    name(out, motifs, from)?;
    say(out, b" calls ")?;
    name(out, motifs, to)
}

// The calls of a ring, till it comes back.
fn calls<P: Print>(out: &P, motifs: Motifs, ring: &Ring) -> io::Result<()> {
    let first = ring.first;
    let mut from = first;
    for k in 0..RING_MOST {
        let Some(to) = next_of(ring, from) else {
            break;
        };
        if k != 0 {
            between(out, to == first)?;
        }
        call(out, motifs, from, to)?;
        if to == first {
            break;
        }
        from = to;
    }
    Ok(())
}

// Says which motifs call each other in a ring; the answer is the cure.
pub(crate) fn told<P: Print>(out: &P, motifs: Motifs, ring: &Ring) -> io::Result<Cure> {
    say(out, b"the motif ")?;
    if next_of(ring, ring.first) == Some(ring.first) {
        name(out, motifs, ring.first)?;
        say(out, b" calls itself")?;
        return Ok(Cure::Itself);
    }
    calls(out, motifs, ring)?;
    Ok(Cure::Of(Cause::Own(Code::Ring)))
}
