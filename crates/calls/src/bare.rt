// Whether a call comes to a pattern that is not defined, by rounds over whom each motif calls.
ghost use Rattle.std.specs.Prelude.{◌≡◌, List, [], ◌<◌, ◌≤◌};
ghost use Rattle.scope.specs.Motif.{Motif};
ghost use Rattle.scope.specs.Calls.{unfolded};
ghost use Rattle.scope.specs.Judge.{some_missing};
ghost use Rattle.motif.specs.Held.{InRow, level_in};
ghost use Rattle.motif.specs.Tables.{Tables};
ghost use Rattle.pattern_rows.specs.Numbers.{OfPage, OfSession, numbers_in, SameRows, Few};
ghost use Rattle.patterns.specs.Selects.{wants_from, Selects};
ghost use Rattle.calls.specs.Marks.{Adds, wants_more};

use crate::why::{marks, spread};
use key::has_mark;
use motif::{LEVEL, ROW, in_use};
use names::limits::NESTING_MOST;
use pattern_rows::{lacks, selecting};
use patterns::{is_known, learn};

// The rows that select a pattern that is not defined.
fn lacking(patterns: &[u16; 4487], n: usize) -> usize
    requires { n ≤ 64 }
    ensures { Adds 0 (wants_more patterns.now) n result }
{
    marks(0, n, |i| lacks(patterns, i))
}

// A pattern that the motif of row i, which has a level, or one that it calls selects is not defined.
fn is_bare(motifs: &[usize; 704], patterns: &[u16; 4487], held: usize, i: usize) -> bool
    requires { i < 64 }
    ensures { (ms : List Motif) (m : Motif) → Tables motifs.now held ms → Selects patterns.now ms
        → Few patterns.now → InRow ms i m → (level_in motifs.now i ≡ 0 → ⊥)
        → result ≡ some_missing (numbers_in patterns.now OfPage) (numbers_in patterns.now OfSession)
        (wants_from (unfolded ms 32 [] m.name) []) }
{
    if !selecting(patterns) {
        return false;
    }
    let n = in_use(held);
    let own = lacking(patterns, n);
    let mut table: usize = 0;
    for _t in 0..motifs[i * ROW + LEVEL].min(NESTING_MOST) {
        table = spread(motifs, n, own, table);
    }
    has_mark(table, i)
}

// The same, where row i is remembered if none is missing: until a motif is held or a page begins, the next call of it is one test.
pub(crate) fn lacks_any(
    motifs: &[usize; 704],
    patterns: &mut [u16; 4487],
    held: usize,
    i: usize,
) -> bool
    requires { i < 64 }
    ensures same_rows { SameRows patterns.old patterns.new }
    ensures selects { (ms : List Motif) → Tables motifs.now held ms → Selects patterns.old ms
        → Few patterns.old → (level_in motifs.now i ≡ 0 → ⊥) → Selects patterns.new ms }
    ensures value { (ms : List Motif) (m : Motif) → Tables motifs.now held ms → Selects patterns.old ms
        → Few patterns.old → InRow ms i m → (level_in motifs.now i ≡ 0 → ⊥)
        → result ≡ some_missing (numbers_in patterns.old OfPage) (numbers_in patterns.old OfSession)
        (wants_from (unfolded ms 32 [] m.name) []) }
{
    if is_known(patterns, i) {
        return false;
    }
    if is_bare(motifs, patterns, held, i) {
        return true;
    }
    learn(patterns, i);
    false
}
