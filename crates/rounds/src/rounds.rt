// A motif's level, from the levels of those that it calls.
ghost use Rattle.std.specs.Prelude.{◌≡◌, true, false, List, ◌≤◌, ◌<◌};
ghost use Rattle.scope.specs.Motif.{Motif};
ghost use Rattle.motif.specs.Search.{few};
ghost use Rattle.motif.specs.Held.{Keeps, InRow, level_in};
ghost use Rattle.motif.specs.Tables.{calls_row, Noted, level_of};
ghost use Rattle.rounds.specs.Rounds.{earlier_of, ready_of, next_of, LevelsBut};

use key::has_mark;
use motif::{CALLS, LEVEL, MISSING, ROW, in_use};
use names::limits::{MOTIFS_MOST, NESTING_MOST};

// A level from an earlier round.
#[tactic(auto, unfolding(crate::specs::Rounds::earlier_of))]
fn earlier(level: usize, t: usize) -> bool
    ensures { result ≡ earlier_of true level t }
{
    level != 0 && level < t
}

// Every motif that motif i calls has its level from an earlier round. Whether a row is called is asked first, and its level only then: of most rows it is not.
fn ready(motifs: &[usize; 704], n: usize, i: usize, t: usize) -> bool
    requires n_bound { n ≤ 64 }
    requires i_bound { i < 64 }
    ensures { result ≡ ready_of motifs.now n i t }
{
    let calls = motifs[i * ROW + CALLS];
    for j in (0..n).rev() {
        if has_mark(calls, j) && !earlier(motifs[j * ROW + LEVEL], t) {
            return false;
        }
    }
    true
}

// The level of the motif of row i after round t, where some have theirs from rounds before; 0 for none.
#[tactic(auto, unfolding(crate::specs::Rounds::next_of))]
pub fn next(motifs: &[usize; 704], held: usize, i: usize, t: usize) -> usize
    ensures { result ≡ next_of motifs.now (few held) i t }
{
    if MOTIFS_MOST <= i {
        return 0;
    }
    let level = motifs[i * ROW + LEVEL];
    if level != 0 {
        return level;
    }
    if motifs[i * ROW + MISSING] == 0 && ready(motifs, in_use(held), i, t) {
        t
    } else {
        0
    }
}

// The level of the motif of row i, which has none yet, where all others have theirs.
pub fn level_of(motifs: &[usize; 704], held: usize, i: usize) -> usize
    ensures { (ms : List Motif) (m : Motif) → Keeps motifs.now held ms → Noted motifs.now held ms → InRow ms i m
        → level_in motifs.now i ≡ 0 → LevelsBut motifs.now ms i → calls_row ms m.ops i ≡ false → result ≡ level_of ms 32 m.name }
{
    for t in 1..=NESTING_MOST {
        let level = next(motifs, held, i, t);
        if level != 0 {
            return level;
        }
    }
    0
}
