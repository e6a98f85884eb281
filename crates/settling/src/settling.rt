// Each motif is read once for whom it calls, and once more in the round in which it gets its level, for what it comes to.
ghost use Rattle.std.specs.Prelude.{◌≡◌, List, ℕ, suc, ◌+◌, ◌≤◌, ◌<◌, length};
ghost use Rattle.setting.specs.Views.{setting_as};
ghost use Rattle.scope.specs.Arm.{Stroke};
ghost use Rattle.scope.specs.Motif.{Motif};
ghost use Rattle.scope.specs.Calls.{flat};
ghost use Rattle.scope.specs.Reach.{Name};
ghost use Rattle.scope.specs.Sound.{Sound};
ghost use Rattle.summary.specs.Sums.{SumsAs};
ghost use Rattle.motif.specs.Held.{Keeps, InRow, level_in, sum_in};
ghost use Rattle.motif.specs.Tables.{SumsUp, Tables};
ghost use Rattle.motif.specs.Stored.{Stores};
ghost use Rattle.within.specs.Judging.{Makes};
ghost use Rattle.settling.specs.Making.{InStore, NotedTo, Rounded};

use motif::{CALLS, LENGTH, LEVEL, MISSING, ROW, START, SUM};
use names::limits::NESTING_MOST;
use setting::Setting;
use summary::EMPTY;
use within::Made;

// A motif that calls nobody and comes to nothing.
const NOTHING: Made = Made {
    sum: EMPTY,
    calls: 0,
    missing: false,
};

// The motif of row i as its bytes say; of one that does not lie in the store, or is faulty, as none that is held is, nothing.
fn read(work: &[u8], set: Setting, motifs: &[usize; 704], held: usize, i: usize) -> Made
    requires { i < 64 }
    ensures { (ms : List Motif) (m : Motif) → Keeps motifs.now held ms → InStore (setting_as set) work.now ms → InRow ms i m
        → Makes motifs.now ms result m.ops }
{
    let start = motifs[i * ROW + START];
    let long = motifs[i * ROW + LENGTH];
    if work.len() < start || work.len() - start < long {
        return NOTHING;
    }
    let end = start + long;
    stream::judge_motif(&work[start..end], set, motifs, held).unwrap_or(NOTHING)
}

// Whom the motif of row i calls, and whether it names one that is not held; it has no level yet.
fn note(work: &[u8], set: Setting, motifs: &mut [usize; 704], held: usize, i: usize)
    requires { i < 64 }
    ensures motifs_len_unchanged { length motifs.new ≡ length motifs.old }
    ensures noted_to { (ms : List Motif) → InStore (setting_as set) work.now ms → NotedTo motifs.old held ms i
        → NotedTo motifs.new held ms (i + 1) }
{
    let made = read(work, set, motifs, held, i);
    motifs[i * ROW + LEVEL] = 0;
    motifs[i * ROW + SUM] = EMPTY;
    motifs[i * ROW + CALLS] = made.calls;
    motifs[i * ROW + MISSING] = usize::from(made.missing);
}

// Every motif noted.
fn note_all(work: &[u8], set: Setting, motifs: &mut [usize; 704], held: usize)
    requires { held ≤ 64 }
    ensures motifs_len_unchanged { length motifs.new ≡ length motifs.old }
    ensures noted_to { (ms : List Motif) → InStore (setting_as set) work.now ms → Keeps motifs.old held ms
        → NotedTo motifs.new held ms held }
{
    for i in 0..held {
        note(work, set, motifs, held, i);
    }
}

// The summary of the motif of row i after a round in which it has this level: made where it gets the level in it, else as it was.
fn sum_next(
    work: &[u8],
    set: Setting,
    motifs: &[usize; 704],
    held: usize,
    i: usize,
    level: usize,
) -> usize
    requires { i < 64 }
    ensures value { (level_in motifs.now i ≡ 0 → ⊥) → result ≡ sum_in motifs.now i }
    ensures value_2 { level ≡ 0 → result ≡ sum_in motifs.now i }
    ensures sums_as { (ms : List Motif) (m : Motif) → Keeps motifs.now held ms → InStore (setting_as set) work.now ms → InRow ms i m
        → level_in motifs.now i ≡ 0 → (level ≡ 0 → ⊥) → (f : Name → List Stroke) → SumsUp motifs.now ms f → (k : ℕ) → SumsAs result (flat f k m.ops) }
{
    if motifs[i * ROW + LEVEL] != 0 || level == 0 {
        motifs[i * ROW + SUM]
    } else {
        read(work, set, motifs, held, i).sum
    }
}

// Round t: each motif that gets its level in it is summed up from those that it calls, which have theirs from earlier rounds.
fn one_round(work: &[u8], set: Setting, motifs: &mut [usize; 704], held: usize, t: usize)
    requires { held ≤ 64 }
    ensures motifs_len_unchanged { length motifs.new ≡ length motifs.old }
    ensures rounded { (ms : List Motif) (d : ℕ) → t ≡ suc d → d < 32 → InStore (setting_as set) work.now ms → Rounded motifs.old held ms d
        → Rounded motifs.new held ms (suc d) }
{
    for i in 0..held {
        let level = rounds::next(motifs, held, i, t);
        let sum = sum_next(work, set, motifs, held, i, level);
        motifs[i * ROW + LEVEL] = level;
        motifs[i * ROW + SUM] = sum;
    }
}

// The table made anew: whom each motif calls, its level, its summary.
pub fn remake(work: &[u8], set: Setting, motifs: &mut [usize; 704], held: usize)
    ensures motifs_len_unchanged { length motifs.new ≡ length motifs.old }
    ensures tables { (ms : List Motif) → Keeps motifs.old held ms → Stores work.now ms → Sound (setting_as set) ms
        → Tables motifs.new held ms }
{
    let n = motif::in_use(held);
    note_all(work, set, motifs, n);
    for t in 1..=NESTING_MOST {
        one_round(work, set, motifs, n, t);
    }
}
