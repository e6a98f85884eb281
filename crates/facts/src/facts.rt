// What a refusal is about.
ghost use Rattle.std.specs.Prelude.{◌<◌};

use crate::missing::missing;
use attributes::{at_most, part_in};
use names::attributes::{PATTERN_DEFINE_ID, PATTERN_PERSISTENCE, PATTERN_SELECT_ID, STREAM_NAME};
use number::byte_at;
use setting::Class;
use trail::Walk;

// The place and its byte; of the value there its attribute's number, count of numbers and place of the first; the class, the operator's tag, the
// attribute that it lacks, the data that it asks for and that is told; the name that it gives; the pattern that it selects or defines, and whether that
// is for the session; states saved, rows read and all rows.
#[derive(Clone, Copy)]
pub struct Facts {
    pub at: u32,
    pub byte: u8,
    pub number: usize,
    pub count: u32,
    pub first: usize,
    pub class: Class,
    pub tag: u8,
    pub missing: usize,
    pub asked: u32,
    pub told: u32,
    pub name: usize,
    pub letters: usize,
    pub pattern: u32,
    pub lasting: bool,
    pub saved: u32,
    pub rows: u32,
    pub height: u32,
}

fn small(n: usize) -> u32 {
    (n % 4_294_967_296) as u32
}

// Which attribute has its value at a place; the first if none has.
fn index_of(walk: &Walk, at: usize) -> usize
    ensures { result < 16 }
{
    for i in 0..at_most(walk.count) {
        if walk.attrs[i * 5 + 2] == at {
            return i;
        }
    }
    0
}

// The number of the pattern that an operator selects, or else defines.
fn pattern_in(walk: &Walk) -> u32 {
    if walk.has(PATTERN_SELECT_ID) {
        walk.value(PATTERN_SELECT_ID)
    } else {
        walk.value(PATTERN_DEFINE_ID)
    }
}

// The facts of the operator that a walk has come to, and of the value at a place before it.
pub fn facts_in(walk: &Walk, at: usize) -> Facts {
    let class = trail::class_in(walk.s);
    let tag = walk.tag.unwrap_or(0);
    let row = index_of(walk, at) * 5;
    let part = part_in(&walk.attrs, walk.count, STREAM_NAME);
    Facts {
        at: small(at),
        byte: byte_at(walk.s, at),
        number: walk.attrs[row],
        count: small(walk.attrs[row + 3]),
        first: walk.attrs[row + 4],
        class,
        tag,
        missing: missing(class, tag, walk).unwrap_or(0) as usize,
        asked: small(data::asked(walk)),
        told: data::told(walk),
        name: part.first,
        letters: part.count,
        pattern: pattern_in(walk),
        lasting: walk.value(PATTERN_PERSISTENCE) == 2,
        saved: walk.stand.saved,
        rows: walk.stand.rows.read,
        height: walk.stand.rows.height as u32,
    }
}
