// The data that an operator asks for, and the length that stands behind it.
#![tactic(auto)]

use names::attributes::{BLOCK_HEIGHT, NUMBER_OF_POINTS, POINT_TYPE, STREAM_DATA_LENGTH};
use names::operators::READ_STREAM;
use number::{Width, byte_at, number_at};
use phrase::after;
use trail::Walk;

// Where the item behind the operator's tag stands.
fn item(walk: &Walk) -> usize {
    white::after_white(walk.s, after(walk.place, 1))
}

// Data stands behind the operator.
pub fn is_told(walk: &Walk) -> bool {
    matches!(byte_at(walk.s, item(walk)), 0xfa | 0xfb)
}

// The length that the data behind the operator tells.
pub fn told(walk: &Walk) -> u32 {
    let p = item(walk);
    if byte_at(walk.s, p) == 0xfb {
        return byte_at(walk.s, after(p, 1)) as u32;
    }
    number_at(walk.s, after(p, 1), Width::Four, walk.high)
}

// Of points: 2 bytes for each coordinate pair of bytes, else 4.
fn points(walk: &Walk) -> usize {
    let many = walk.value(NUMBER_OF_POINTS) as usize;
    if walk.value(POINT_TYPE) <= 1 {
        2 * many
    } else {
        4 * many
    }
}

// Of rows: BlockHeight of them, each filled up.
fn rows(walk: &Walk) -> usize {
    let many = walk.value(BLOCK_HEIGHT) as usize;
    let pad = due::pad_of(walk.s, walk.high, &walk.attrs, walk.count);
    many * due::row_of(walk.stand.rows.width, walk.stand.rows.depth, pad)
}

// The length that the operator asks for.
pub fn asked(walk: &Walk) -> usize {
    match walk.tag {
        Some(READ_STREAM) => walk.value(STREAM_DATA_LENGTH) as usize,
        Some(tag) if due::reads_rows(tag) => rows(walk),
        _ => points(walk),
    }
}
