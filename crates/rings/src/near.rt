// The nearest motif of a kind that a call comes to.
ghost use Rattle.std.specs.Prelude.{◌<◌, IfSome};

use crate::toward::{CALLS_MOST, Way, toward};
use motif::{MISSING, ROW, in_use};
use names::limits::MOTIFS_MOST;

// What is looked for: a motif of a ring, or one that names a motif not held.
#[derive(Clone, Copy)]
enum Kind {
    Ring,
    Lacks,
}

// A ring of calls: the row of a motif of it, and the ways there, which the others of it are on.
#[derive(Clone, Copy)]
pub struct Ring {
    pub first: usize,
    pub ways: [Option<Way>; 64],
}

// How many calls lead from a row to the goal of the ways.
fn calls_from(ways: &[Option<Way>; 64], row: usize) -> Option<u8> {
    match ways.get(row) {
        Some(Some(way)) => Some(way.calls),
        _ => None,
    }
}

// What the motif of a row adds to the way there: its ring's calls, or its own call of a motif not held.
fn added(motifs: &[usize; 704], ways: &[Option<Way>; 64], row: usize, kind: Kind) -> Option<u8> {
    match kind {
        Kind::Ring => calls_from(ways, row),
        Kind::Lacks if row < MOTIFS_MOST && motifs[row * ROW + MISSING] != 0 => Some(1),
        Kind::Lacks => None,
    }
}

// How many calls lead from one row to another, none to itself, with those that the other adds.
fn calls_to(
    motifs: &[usize; 704],
    held: usize,
    from: usize,
    row: usize,
    kind: Kind,
) -> Option<u32> {
    let ways = toward(motifs, held, row);
    let there = if from == row {
        0
    } else {
        calls_from(&ways, from)?
    };
    Some(there as u32 + added(motifs, &ways, row, kind)? as u32)
}

// The row to which the fewest calls lead from one, with those that it adds, if that is within what counts.
fn nearest(motifs: &[usize; 704], held: usize, from: usize, kind: Kind) -> Option<usize>
    ensures { IfSome result (λ row. (row < 64) × (row < held)) }
{
    let mut found = None;
    let mut least = CALLS_MOST as u32 + 1;
    for row in 0..in_use(held) {
        if let Some(calls) = calls_to(motifs, held, from, row, kind) {
            if calls < least {
                least = calls;
                found = Some(row);
            }
        }
    }
    found
}

// The nearest ring that a call of a row comes to.
pub fn ring_from(motifs: &[usize; 704], held: usize, from: usize) -> Option<Ring>
    ensures { IfSome result (λ ring. (ring.first < 64) × (ring.first < held)) }
{
    let first = nearest(motifs, held, from, Kind::Ring)?;
    let ways = toward(motifs, held, first);
    Some(Ring { first, ways })
}

// The row of the nearest motif that a call of a row comes to and that names one not held.
pub fn lacking(motifs: &[usize; 704], held: usize, from: usize) -> Option<usize>
    ensures { IfSome result (λ row. (row < 64) × (row < held)) }
{
    nearest(motifs, held, from, Kind::Lacks)
}
