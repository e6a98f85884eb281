// The numbers that the motif being judged selects: one row of them, and the row that keeps them.
ghost use Rattle.std.specs.Prelude.{◌≡◌, ◌<◌, length};
ghost use Rattle.pattern_rows.specs.Numbers.{OfMotif, numbers_in, noted, OtherRows, Unknown, Quiet};

use crate::known::forget;
use crate::lists::{copy_own, define};
use names::limits::MOTIFS_MOST;

// One number more, unless it is there: they are the one row of their own.
pub fn note(own: &mut [u16; 66], n: u16)
    ensures own_len_unchanged { length own.new ≡ length own.old }
    ensures own_after { numbers_in own.new 0 ≡ noted n (numbers_in own.old 0) }
{
    define(own, 0, n);
}

// The motif that was judged becomes held in this row. Who calls it may lack a pattern now, so no call is known to lack none.
pub fn keep(patterns: &mut [u16; 4487], row: usize)
    requires { row < 64 }
    ensures row_after { numbers_in patterns.new row ≡ numbers_in patterns.old OfMotif }
    ensures other_rows { OtherRows patterns.old row patterns.new }
    ensures quiet { Quiet patterns.old → Quiet patterns.new }
    ensures unknown { Unknown patterns.new }
{
    copy_own(patterns, row);
    forget(patterns, MOTIFS_MOST);
}
