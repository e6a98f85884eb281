// Down from motif to motif, to the first operator that breaks the rule of a code.
use crate::call::{called, performed};
use arm::seen::Seen;
use keeping::Motifs;
use names::limits::{NESTING_MOST, SAVED_MOST};
use names::operators::EXEC_STREAM;
use page::page::Page;
use trail::Walk;

// An operator of a motif that breaks a rule: the motif's row, and the walk that has come to the operator.
#[derive(Clone, Copy)]
pub struct Breach<'a> {
    pub row: usize,
    pub walk: Walk<'a>,
}

// The rule of a code was broken on the way to the operator or by it: 21 if it calls a name that is not held.
fn is_broken(code: u32, walk: &Walk, motifs: Motifs, seen: Seen) -> bool {
    match code {
        17 => seen.source,
        21 => walk.tag == Some(EXEC_STREAM) && called(walk, motifs).is_none(),
        23 => SAVED_MOST < seen.most,
        24 => seen.lost,
        _ => seen.wrong,
    }
}

// Goes from a page on through a motif to the operator, to which the walk has come then; the answer is the page before it.
fn through(code: u32, gray: bool, motifs: Motifs, page: Page, walk: &mut Walk) -> Page {
    let mut seen = Seen::from(page, 0);
    let end = walk.s.len();
    for _ in 0..end {
        if !walk.pass(end) {
            break;
        }
        let then = performed(walk, gray, motifs, seen);
        if is_broken(code, walk, motifs, then) {
            break;
        }
        seen = then;
    }
    seen.page
}

// From the motif that is called down to the one with the operator that breaks the rule of a code.
pub fn down(code: u32, gray: bool, motifs: Motifs, start: Page, first: usize) -> Breach {
    let mut page = start;
    let mut row = first;
    let mut walk = Walk::of_motif(motifs.bytes_of(row));
    for _ in 0..NESTING_MOST {
        page = through(code, gray, motifs, page, &mut walk);
        let Some(next) = called(&walk, motifs) else {
            break;
        };
        row = next;
        walk = Walk::of_motif(motifs.bytes_of(row));
    }
    Breach { row, walk }
}

// Of 21: the operator of the nearest motif that names one not held, of those that a call comes to.
pub fn lacking<'a>(
    gray: bool,
    motifs: Motifs<'a>,
    start: Page,
    first: usize,
) -> Option<Breach<'a>> {
    let row = rings::lacking(motifs.table, motifs.many, first)?;
    let mut walk = Walk::of_motif(motifs.bytes_of(row));
    through(21, gray, motifs, start, &mut walk);
    Some(Breach { row, walk })
}
