// Why a call is refused, by rounds over whom each motif calls. A table of the rounds is one number, with a mark for each row.
ghost use Rattle.std.specs.Prelude.{◌≡◌, Bool, true, Err, List, [], ℕ, suc, ◌<◌, ◌≤◌, ltb};
ghost use Rattle.scope.specs.Choice.{pick};
ghost use Rattle.scope.specs.Motif.{Motif};
ghost use Rattle.scope.specs.Calls.{met};
ghost use Rattle.motif.specs.Held.{InRow, level_in};
ghost use Rattle.motif.specs.Tables.{Tables};
ghost use Rattle.calls.specs.Marks.{Adds, lacks, reaches, closes};
ghost use Rattle.calls.specs.Judged.{Calls};

use key::{has_mark, with_mark};
use motif::{CALLS, MISSING, ROW, in_use};
use names::limits::NESTING_MOST;
use refusal::Code;

// The marks given, and one for each of the first n rows of which a test is true.
pub(crate) fn marks<F: Fn(usize) -> bool>(own: usize, n: usize, test: F) -> usize
    requires n_bound { n ≤ 64 }
    requires callable { (i : ℕ) → i < n → F.pre test i }
    ensures { (f : ℕ → Bool) → ((i : ℕ) (b : Bool) → i < n → F.post test i b → b ≡ f i) → Adds own f n result }
{
    let mut out = own;
    for i in 0..n {
        if test(i) {
            out = with_mark(out, i);
        }
    }
    out
}

// The rows that name a motif that is not held.
fn lacking(motifs: &[usize; 704], n: usize) -> usize
    requires { n ≤ 64 }
    ensures { Adds 0 (lacks motifs.now) n result }
{
    marks(0, n, |i| motifs[i * ROW + MISSING] != 0)
}

// The marks one call on: those given, and each row that calls one of the table.
pub(crate) fn spread(motifs: &[usize; 704], n: usize, own: usize, table: usize) -> usize
    requires { n ≤ 64 }
    ensures { Adds own (reaches motifs.now table) n result }
{
    marks(own, n, |i| motifs[i * ROW + CALLS] & table != 0)
}

// By 32 calls or fewer from a call of the motif of row i a name is reached that is not held.
fn loses(motifs: &[usize; 704], n: usize, i: usize) -> bool
    requires { n ≤ 64 }
    ensures { (ms : List Motif) (m : Motif) → Tables motifs.now n ms → InRow ms i m → result ≡ (met ms 32 [] m.name).missing }
{
    let own = lacking(motifs, n);
    let mut table: usize = 0;
    for _t in 0..NESTING_MOST {
        table = spread(motifs, n, own, table);
    }
    has_mark(table, i)
}

// The first turn that found a mark: this one, if none before did and there is one; else the next may be.
fn first(found: usize, t: usize, marked: bool) -> usize
    requires { t < 64 }
    ensures value { result ≡ pick (ltb found t) found (pick marked t (suc t)) }
    ensures upper_bound { result ≤ suc t }
{
    if found < t {
        found
    } else if marked {
        t
    } else {
        t + 1
    }
}

// From the motif of row i to that of row v and from there round to it, by 32 calls or fewer in all.
fn closes_at(motifs: &[usize; 704], n: usize, i: usize, v: usize) -> bool
    requires { n ≤ 64 }
    ensures { (ms : List Motif) (m w : Motif) → Tables motifs.now n ms → InRow ms i m → InRow ms v w → result ≡ closes ms w.name m.name }
{
    let mut table = with_mark(0, v);
    let mut there: usize = 0;
    let mut round: usize = 0;
    for t in 0..NESTING_MOST {
        there = first(there, t, has_mark(table, i));
        table = spread(motifs, n, 0, table);
        round = first(round, t, has_mark(table, v));
    }
    there + round < NESTING_MOST
}

// A call of the motif of row i meets a motif that is running.
fn turns(motifs: &[usize; 704], n: usize, i: usize) -> bool
    requires { n ≤ 64 }
    ensures { (ms : List Motif) (m : Motif) → Tables motifs.now n ms → InRow ms i m → result ≡ (met ms 32 [] m.name).again }
{
    for v in 0..n {
        if closes_at(motifs, n, i, v) {
            return true;
        }
    }
    false
}

// Why a call of the motif of row i, which has no level, is refused: the first of 21, 32, 22 that it meets.
pub fn why_not(motifs: &[usize; 704], held: usize, i: usize) -> Code
    ensures { (of_page of_session : List ℕ) (ms : List Motif) (m : Motif) → Tables motifs.now held ms → InRow ms i m
        → level_in motifs.now i ≡ 0 → Calls of_page of_session ms m.name (Err result) }
{
    let n = in_use(held);
    if loses(motifs, n, i) {
        Code::NotHeld
    } else if turns(motifs, n, i) {
        Code::Ring
    } else {
        Code::Deep
    }
}
