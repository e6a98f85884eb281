// A motif of a held name takes the place of the one held.
ghost use Rattle.std.specs.Prelude.{◌≡◌, List, ℕ, ◌+◌, ◌≤◌, ◌<◌, length, drop};
ghost use Rattle.scope.specs.Motif.{Own, Motif, Held, held_as, bytes_held};
ghost use Rattle.scope.specs.Session.{replaced as replacedIn};
ghost use Rattle.setting.specs.Views.{setting_as};
ghost use Rattle.motif.specs.Sorted.{Sorted};
ghost use Rattle.motif.specs.Held.{Rows, InRow, key_in, order_in};
ghost use Rattle.motif.specs.Stored.{Stored};
ghost use Rattle.holding.specs.Laid.{Named};
ghost use Rattle.adding.specs.Comes.{Comes};

use motif::{Kept, LENGTH, ROW, START};
use names::limits::STORE_MOST;
use setting::Setting;

// Where each motif's bytes begin, anew: behind those of the motifs before it.
fn lay_out(motifs: &mut [usize; 704], held: usize)
    ensures motifs_len_unchanged { length motifs.new ≡ length motifs.old }
    ensures rows { (ms : List Motif) → length motifs.old ≡ 704 → held ≤ 64 → Named motifs.old held ms → bytes_held ms ≤ 16384
        → Rows motifs.new held ms }
    ensures by_index { (n : ℕ) → Sorted (key_in motifs.old) (order_in motifs.old) n
        → Sorted (key_in motifs.new) (order_in motifs.new) n }
{
    let n = motif::in_use(held);
    let mut start: usize = 0;
    for i in 0..n {
        let long = motifs[i * ROW + LENGTH].min(STORE_MOST);
        motifs[i * ROW + START] = start;
        start += long;
    }
}

// The motif takes the place of that of row i: those behind it move, and the table is made anew.
pub(crate) fn replaced(
    work: &mut [u8],
    motifs: &mut [usize; 704],
    set: Setting,
    kept: Kept,
    i: usize,
    joined: usize,
) -> Kept
    requires i_bound { i < 64 }
    requires joined_bound { kept.used + joined ≤ 16384 }
    requires joined_in_bounds { kept.used + joined ≤ length work.old }
    ensures work_len_unchanged { length work.new ≡ length work.old }
    ensures work_unchanged { drop 16384 work.new ≡ drop 16384 work.old }
    ensures motifs_len_unchanged { length motifs.new ≡ length motifs.old }
    ensures by_index { (name : List ℕ) (ms : List Motif) (bytes : List ℕ) (ops : List Own) (m : Motif)
        → Comes (setting_as set) work.old motifs.old kept joined name ms bytes ops → held_as name ms ≡ Held.is m → InRow ms i m
        → Stored (setting_as set) work.new motifs.new result (replacedIn name bytes ops ms) }
{
    let held = kept.held;
    let used = kept.used;
    let start = motifs[i * ROW + START];
    let old = motifs[i * ROW + LENGTH];
    store::replace(work, start, old, used, joined);
    motifs[i * ROW + LENGTH] = joined;
    lay_out(motifs, held);
    settling::remake(work, set, motifs, held);
    if used + joined < old {
        return kept;
    }
    Kept {
        held: held,
        used: used + joined - old,
    }
}
