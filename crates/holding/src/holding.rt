// A valid motif becomes held.
ghost use Rattle.std.specs.Prelude.{◌≡◌, true, false, List, ℕ, ◌+◌, ◌≤◌, length, take, drop};
ghost use Rattle.setting.specs.Views.{setting_as};
ghost use Rattle.scope.specs.Motif.{Own, Motif, valid, motif_of};
ghost use Rattle.scope.specs.Session.{kept_as};
ghost use Rattle.key.specs.Keys.{IsName};
ghost use Rattle.motif.specs.Stored.{Stored, full};
ghost use Rattle.within.specs.Judging.{Makes};

use crate::replacing::replaced;
use adding::added;
use motif::Kept;
use names::limits::STORE_MOST;
use setting::Setting;
use within::Made;

// There is room for so many bytes behind those held, in the store and in a work buffer of this length.
fn fits(len: usize, used: usize, joined: usize) -> bool
    ensures joined_bound { result ≡ true → (used + joined ≤ 16384) × (used + joined ≤ len) }
    ensures value { used + joined ≤ 16384 → 16384 ≤ len → result ≡ true }
{
    used <= STORE_MOST && joined <= STORE_MOST - used && used + joined <= len
}

// The motif of so many bytes, which stand in the work buffer behind those held: it replaces the one that its name holds, or becomes held as the last one.
// Where there is no room for it nothing is done.
pub fn hold(
    work: &mut [u8],
    motifs: &mut [usize; 704],
    set: Setting,
    name: &[u8],
    kept: Kept,
    joined: usize,
    made: Made,
) -> Kept
    ensures work_len_unchanged { length work.new ≡ length work.old }
    ensures work_unchanged { drop 16384 work.new ≡ drop 16384 work.old }
    ensures motifs_len_unchanged { length motifs.new ≡ length motifs.old }
    ensures stored { (ms : List Motif) (ops : List Own) (bytes : List ℕ) → Stored (setting_as set) work.old motifs.old kept ms
        → kept.used + joined ≤ 16384 → 16384 ≤ length work.old → joined ≡ length bytes → take joined (drop kept.used work.old) ≡ bytes
        → IsName name.now → full ms name.now ≡ false → motif_of (setting_as set) bytes ≡ valid ops → Makes motifs.old ms made ops
        → Stored (setting_as set) work.new motifs.new result (kept_as name.now bytes (valid ops) ms) }
{
    if !fits(work.len(), kept.used, joined) {
        return kept;
    }
    match motif::find(motifs, kept.held, name) {
        Some(i) => replaced(work, motifs, set, kept, i, joined),
        None => added(work, motifs, set, name, kept, joined, made),
    }
}
