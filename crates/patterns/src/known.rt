// What is known of calls: of which motifs a call lacks no pattern, until something changes that could make it lack one.
ghost use Rattle.std.specs.Prelude.{◌≡◌, true, [], ℕ, ◌≤◌, ◌<◌};
ghost use Rattle.pattern_rows.specs.Numbers.{numbers_in, selecting_in, known_in, OtherRows, SameRows, Unknown};

use crate::lists::empty;
use names::limits::MOTIFS_MOST;

// Behind the rows and the mark, a cell for each of the 64 motifs: not 0 if a call of it is known to lack no pattern.
const KNOWN: usize = 4_423;

// A call of the motif of row i is known to lack no pattern.
pub fn is_known(patterns: &[u16; 4487], i: usize) -> bool
    requires { i < 64 }
    ensures { result ≡ true → known_in patterns.now i ≡ 0 → ⊥ }
{
    patterns[KNOWN + i] != 0
}

// A call of the motif of row i was found to lack no pattern.
pub fn learn(patterns: &mut [u16; 4487], i: usize)
    requires { i < 64 }
    ensures same_rows { SameRows patterns.old patterns.new }
    ensures by_index { (k : ℕ) → (k ≡ i → ⊥) → known_in patterns.new k ≡ known_in patterns.old k }
{
    patterns[KNOWN + i] = 1;
}

// Of the first n motifs no call is known any more to lack no pattern.
pub(crate) fn forget(patterns: &mut [u16; 4487], n: usize)
    requires { n ≤ 64 }
    ensures same_rows { SameRows patterns.old patterns.new }
    ensures by_index { (i : ℕ) → i < n → known_in patterns.new i ≡ 0 }
{
    patterns[KNOWN..KNOWN + n].fill(0);
}

// No number in a row. A call that lacked no pattern may lack one now, so none is known to lack none.
pub fn clear(patterns: &mut [u16; 4487], row: usize)
    requires { row < 67 }
    ensures row_after { numbers_in patterns.new row ≡ [] }
    ensures other_rows { OtherRows patterns.old row patterns.new }
    ensures patterns_unchanged { selecting_in patterns.new ≡ selecting_in patterns.old }
    ensures unknown { Unknown patterns.new }
{
    empty(patterns, row);
    forget(patterns, MOTIFS_MOST);
}
