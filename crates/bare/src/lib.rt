// Of 34: the nearest motif that a call comes to and that selects a pattern that is not defined where the job calls.
#![tactic(auto)]

use down::Breach;
use keeping::Motifs;
use motif::{MISSING, ROW, in_use};
use names::attributes::PATTERN_SELECT_ID;
use trail::Walk;

// The operator of a motif that a walk has come to selects a pattern that is not defined at a place of the job.
fn is_bare(job: &[u8], to: usize, walk: &Walk) -> bool {
    walk.has(PATTERN_SELECT_ID) && !hatched::is_hatched(job, to, walk.value(PATTERN_SELECT_ID))
}

// Goes through the motif of a row to its first operator that does, if there is one.
fn bare_in<'a>(job: &[u8], to: usize, motifs: Motifs<'a>, row: usize) -> Option<Breach<'a>> {
    let motif = motifs.bytes_of(row);
    let mut walk = Walk::of_motif(motif);
    for _ in 0..motif.len() {
        if !walk.pass(motif.len()) {
            return None;
        }
        if is_bare(job, to, &walk) {
            return Some(Breach { row, walk });
        }
    }
    None
}

// The operator of the nearest one of those that a call comes to. Each held motif that has one is marked in the column of those that name one not held:
// where 34 is judged, no motif that the call comes to does that.
pub fn bare<'a>(job: &[u8], to: usize, motifs: Motifs<'a>, called: usize) -> Option<Breach<'a>> {
    let mut marked = *motifs.table;
    for row in 0..in_use(motifs.many) {
        marked[row * ROW + MISSING] = bare_in(job, to, motifs, row).is_some() as usize;
    }
    let row = rings::lacking(&marked, motifs.many, called)?;
    bare_in(job, to, motifs, row)
}
