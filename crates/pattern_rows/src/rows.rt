// Lists of numbers, in rows of 66: how many there are, and then the numbers.
ghost use Rattle.std.specs.Prelude.{◌≡◌, false, ◌||◌, ◌+◌, ◌*◌, ◌≤◌, ◌<◌, length, reverse};
ghost use Rattle.scope.specs.Choice.{among};
ghost use Rattle.scope.specs.Judge.{some_missing};
ghost use Rattle.pattern_rows.specs.Numbers.{OfPage, OfSession, numbers_in, selecting_in};

// A row is how many numbers it has, at most 65, and then the numbers.
pub const ROW: usize = 66;

pub const NUMBERS_MOST: usize = 65;

// The rows behind those of the 64 motifs: what is defined for the page, for the session, and what the motif that is being judged selects.
pub const PAGE: usize = 64;

pub const SESSION: usize = 65;

pub const OWN: usize = 66;

// Behind the rows: 0 as long as no motif selects a pattern.
pub const SELECTING: usize = 4_422;

// How many numbers a row has.
pub fn count(patterns: &[u16], row: usize) -> usize
    requires { (row < 67) × (row * 66 + 66 ≤ length patterns.now) }
    ensures value { result ≡ length (numbers_in patterns.now row) }
    ensures upper_bound { result < 66 }
{
    usize::from(patterns[row * ROW]).min(NUMBERS_MOST)
}

// The numbers of a row; the specification has the last one first.
fn numbers(patterns: &[u16], row: usize) -> &[u16]
    requires { (row < 67) × (row * 66 + 66 ≤ length patterns.now) }
    ensures { reverse result.now ≡ numbers_in patterns.now row }
{
    let first = row * ROW + 1;
    &patterns[first..first + count(patterns, row)]
}

// A number is in a row.
pub fn has(patterns: &[u16], row: usize, n: u16) -> bool
    requires { (row < 67) × (row * 66 + 66 ≤ length patterns.now) }
    ensures { result ≡ among (numbers_in patterns.now row) n }
{
    numbers(patterns, row).iter().rev().any(|m| *m == n)
}

// A pattern is defined, for the page or for the session.
pub fn is_defined(patterns: &[u16; 4487], n: u16) -> bool
    ensures { result ≡ (among (numbers_in patterns.now OfPage) n || among (numbers_in patterns.now OfSession) n) }
{
    has(patterns, PAGE, n) || has(patterns, SESSION, n)
}

// A number of a row is not defined.
pub fn lacks(patterns: &[u16; 4487], row: usize) -> bool
    requires { row < 67 }
    ensures { result ≡ some_missing (numbers_in patterns.now OfPage) (numbers_in patterns.now OfSession)
        (numbers_in patterns.now row) }
{
    numbers(patterns, row)
        .iter()
        .rev()
        .any(|n| !is_defined(patterns, *n))
}

// A motif selects a pattern, or one that is not held any more did.
pub fn selecting(patterns: &[u16; 4487]) -> bool
    ensures { result ≡ false → selecting_in patterns.now ≡ 0 }
{
    patterns[SELECTING] != 0
}
