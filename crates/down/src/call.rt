// An operator of a page or of a motif performed, a call from what its motif comes to.
ghost use Rattle.std.specs.Prelude.{IfSome, ◌<◌};

use arm::seen::Seen;
use keeping::Motifs;
use motif::{ROW, SUM, find};
use names::operators::EXEC_STREAM;
use trail::Walk;

// The row of the motif that the operator calls; none if it calls none that is held.
pub fn called(walk: &Walk, motifs: Motifs) -> Option<usize>
    ensures { IfSome result (λ k. k < 64) }
{
    if walk.tag != Some(EXEC_STREAM) {
        return None;
    }
    find(motifs.table, motifs.many, walk.name())
}

// What is seen after an operator that is no call.
fn step(walk: &Walk, gray: bool, seen: Seen) -> Seen {
    let tag = walk.tag.unwrap_or(0);
    let reads = data::is_told(walk);
    seen.step(act::act_of(walk.s, walk.high, gray, tag, reads, &walk.attrs, walk.count))
}

// What is seen after the operator that a walk has come to; pages start in gray or else in RGB.
pub fn performed(walk: &Walk, gray: bool, motifs: Motifs, seen: Seen) -> Seen {
    match called(walk, motifs) {
        Some(k) => seen.call(summary::unpacked(motifs.table[k * ROW + SUM])),
        None => step(walk, gray, seen),
    }
}
