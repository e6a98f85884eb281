// What is written in the rows of numbers: one more, none, or those of the motif that was judged.
ghost use Rattle.std.specs.Prelude.{◌≡◌, [], ◌+◌, ◌*◌, ◌≤◌, ◌<◌, length};
ghost use Rattle.pattern_rows.specs.Numbers.{OfMotif, numbers_in, noted, selecting_in, Others, OtherRows, Quiet};

use pattern_rows::{NUMBERS_MOST, OWN, ROW, SELECTING, count, has};

// One number more in a row, unless it is there.
pub fn define(patterns: &mut [u16], row: usize, n: u16)
    requires { (row < 67) × (row * 66 + 66 ≤ length patterns.old) }
    ensures row_after { numbers_in patterns.new row ≡ noted n (numbers_in patterns.old row) }
    ensures others { Others patterns.old row patterns.new }
    ensures patterns_unchanged { selecting_in patterns.new ≡ selecting_in patterns.old }
{
    let count = count(patterns, row);
    if has(patterns, row, n) || NUMBERS_MOST <= count {
        return;
    }
    patterns[row * ROW + count + 1] = n;
    patterns[row * ROW] = (count + 1) as u16;
}

// No number in a row.
pub(crate) fn empty(patterns: &mut [u16; 4487], row: usize)
    requires { row < 67 }
    ensures row_after { numbers_in patterns.new row ≡ [] }
    ensures others { Others patterns.old row patterns.new }
    ensures patterns_unchanged { selecting_in patterns.new ≡ selecting_in patterns.old }
{
    patterns[row * ROW] = 0;
}

// What the motif that was judged selects, kept for later.
pub fn take_own(patterns: &mut [u16; 4487], own: &[u16; 66])
    ensures patterns_after { numbers_in patterns.new OfMotif ≡ numbers_in own.now 0 }
    ensures others { Others patterns.old OfMotif patterns.new }
    ensures patterns_unchanged { selecting_in patterns.new ≡ selecting_in patterns.old }
{
    if own[0] == 0 {
        empty(patterns, OWN);
        return;
    }
    patterns[OWN * ROW..OWN * ROW + ROW].copy_from_slice(own);
}

// What the motif that was judged selects, in this row.
pub(crate) fn copy_own(patterns: &mut [u16; 4487], row: usize)
    requires { row < 64 }
    ensures row_after { numbers_in patterns.new row ≡ numbers_in patterns.old OfMotif }
    ensures other_rows { OtherRows patterns.old row patterns.new }
    ensures quiet { Quiet patterns.old → Quiet patterns.new }
{
    if patterns[OWN * ROW] == 0 {
        empty(patterns, row);
        return;
    }
    patterns.copy_within(OWN * ROW..OWN * ROW + ROW, row * ROW);
    patterns[SELECTING] = 1;
}
