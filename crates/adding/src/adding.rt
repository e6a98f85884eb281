// A motif of a new name becomes held as the last one.
ghost use Rattle.std.specs.Prelude.{◌≡◌, true, false, List, ◌∷◌, ℕ, ◌+◌, ◌*◌, ◌≤◌, ◌<◌, length, eqb};
ghost use Rattle.scope.specs.Choice.{pick};
ghost use Rattle.scope.specs.Motif.{Own, Motif, Held, held_as};
ghost use Rattle.scope.specs.Sound.{Sound};
ghost use Rattle.setting.specs.Views.{setting_as};
ghost use Rattle.key.specs.Keys.{key_of};
ghost use Rattle.motif.specs.Tables.{Tables};
ghost use Rattle.motif.specs.Stored.{Stores, Stored};
ghost use Rattle.within.specs.Judging.{Makes};
ghost use Rattle.adding.specs.Rowing.{written, new_row, Done};
ghost use Rattle.adding.specs.Comes.{Comes, new_of, Fresh};

use motif::{CALLS, Kept, LENGTH, LEVEL, MISSING, ROW, START, SUM};
use names::limits::MOTIFS_MOST;
use setting::Setting;
use summary::EMPTY;
use within::Made;

// Row i is written, of a motif that has no level yet.
fn write_row(
    motifs: &mut [usize; 704],
    i: usize,
    name: &[u8],
    start: usize,
    long: usize,
    made: Made,
)
    requires { i < 64 }
    ensures { motifs.new ≡ written motifs.old (i * 10) 0 (new_row (key_of name.now) start long made) }
{
    let key = key::key_of(name);
    motifs[i * ROW] = key.first;
    motifs[i * ROW + 1] = key.next;
    motifs[i * ROW + 2] = key.long;
    motifs[i * ROW + START] = start;
    motifs[i * ROW + LENGTH] = long;
    motifs[i * ROW + LEVEL] = 0;
    motifs[i * ROW + SUM] = EMPTY;
    motifs[i * ROW + CALLS] = made.calls;
    motifs[i * ROW + MISSING] = usize::from(made.missing);
}

// The motif of row j has a level, and no mark for the row that comes next: of marks the table says only those of rows in use.
fn is_done(motifs: &[usize; 704], next: usize, j: usize) -> bool
    requires next_bound { next < 64 }
    requires j_bound { j < 64 }
    ensures { result ≡ true → Done motifs.now next j }
{
    motifs[j * ROW + LEVEL] != 0 && !key::has_mark(motifs[j * ROW + CALLS], next)
}

// So it is with every motif held.
fn all_done(motifs: &[usize; 704], held: usize) -> bool
    requires { held < 64 }
    ensures { result ≡ true → (j : ℕ) → j < held → Done motifs.now held j }
{
    for j in 0..held {
        if !is_done(motifs, held, j) {
            return false;
        }
    }
    true
}

// The summary of a motif that has this level: without one it has that of no operator.
fn sum_for(level: usize, sum: usize) -> usize
    ensures { result ≡ pick (eqb level 0) 48 sum }
{
    if level == 0 { EMPTY } else { sum }
}

// Level and summary of the motif of row i, the last one, which names held motifs only: a new name changes nothing of the others, where each has its level.
fn settle_last(motifs: &mut [usize; 704], i: usize, made: Made)
    requires { i < 64 }
    ensures motifs_len_unchanged { length motifs.new ≡ length motifs.old }
    ensures tables { (m : Motif) (ms : List Motif) → Fresh motifs.old i made m ms → made.missing ≡ false
        → ((j : ℕ) → j < i → Done motifs.old i j) → Tables motifs.new (i + 1) (m ∷ ms) }
{
    let level = rounds::level_of(motifs, i + 1, i);
    motifs[i * ROW + LEVEL] = level;
    motifs[i * ROW + SUM] = sum_for(level, made.sum);
}

// The table of one motif more, whose row is written: the short way where it touches no other motif, else all anew.
fn settle(work: &[u8], set: Setting, motifs: &mut [usize; 704], held: usize, made: Made)
    requires { held < 64 }
    ensures motifs_len_unchanged { length motifs.new ≡ length motifs.old }
    ensures tables { (m : Motif) (ms : List Motif) → Fresh motifs.old held made m ms → Stores work.now (m ∷ ms)
        → Sound (setting_as set) (m ∷ ms) → Tables motifs.new (held + 1) (m ∷ ms) }
{
    if made.missing || !all_done(motifs, held) {
        settling::remake(work, set, motifs, held + 1);
    } else {
        settle_last(motifs, held, made);
    }
}

// The motif becomes held as the last one, unless there is no row for it.
pub fn added(
    work: &[u8],
    motifs: &mut [usize; 704],
    set: Setting,
    name: &[u8],
    kept: Kept,
    joined: usize,
    made: Made,
) -> Kept
    requires joined_bound { kept.used + joined ≤ 16384 }
    requires joined_in_bounds { kept.used + joined ≤ length work.now }
    ensures motifs_len_unchanged { length motifs.new ≡ length motifs.old }
    ensures stored { (ms : List Motif) (bytes : List ℕ) (ops : List Own)
        → Comes (setting_as set) work.now motifs.old kept joined name.now ms bytes ops
        → held_as name.now ms ≡ Held.none → length ms < 64 → Makes motifs.old ms made ops
        → Stored (setting_as set) work.now motifs.new result (new_of name.now bytes ops ms ∷ ms) }
{
    let held = kept.held;
    let used = kept.used;
    if MOTIFS_MOST <= held {
        return kept;
    }
    write_row(motifs, held, name, used, joined, made);
    motif::enter(motifs, held, name);
    settle(work, set, motifs, held, made);
    Kept {
        held: held + 1,
        used: used + joined,
    }
}
