// What a balanced row of operators comes to, and the same as one number.
ghost use Rattle.std.specs.Prelude.{◌≡◌, List, ◌≤◌};
ghost use Rattle.scope.specs.Arm.{Stroke};
ghost use Rattle.summary.specs.Sums.{ending_bits, ending_of, Sums, SumsAs};

// Cursor and colour space after the row, and whether a cursor was needed and not set, or a colour space and another was set.
#[derive(Clone, Copy)]
pub struct Ending {
    pub cursor: bool,
    pub gray: bool,
    pub lost: bool,
    pub wrong: bool,
}

// How many operators (past 1,000,000 always 1,000,001), the most states saved at a time (past 24 always 25), whether an open source is needed, and the
// endings from a set cursor and gray (a) and from no cursor and RGB (b).
#[derive(Clone, Copy)]
pub struct Summary {
    pub count: u32,
    pub most: u32,
    pub source: bool,
    pub a: Ending,
    pub b: Ending,
}

// The summary of no operator, as one number: from either start the page is as it was.
pub const EMPTY: usize = 48;

impl Ending {
    // The ending as four bits.
    fn packed(self) -> usize
        ensures value { result ≡ ending_bits self }
        ensures upper_bound { result ≤ 15 }
    {
        usize::from(self.cursor)
            + usize::from(self.gray) * 2
            + usize::from(self.lost) * 4
            + usize::from(self.wrong) * 8
    }
}

// The ending in four bits.
#[tactic(auto, unfolding(crate::specs::Sums::ending_of))]
fn in_bits(n: usize) -> Ending
    ensures { result ≡ ending_of n }
{
    Ending {
        cursor: n % 2 == 1,
        gray: n / 2 % 2 == 1,
        lost: n / 4 % 2 == 1,
        wrong: n / 8 % 2 == 1,
    }
}

impl Summary {
    // The summary as one number.
    pub fn packed(self) -> usize
        ensures { (row : List Stroke) → Sums self row → SumsAs result row }
    {
        self.count as usize * 16384
            + (self.most % 32) as usize * 512
            + usize::from(self.source) * 256
            + self.a.packed() * 16
            + self.b.packed()
    }
}

// The summary in a number.
#[tactic(auto, unfolding(crate::specs::Sums::SumsAs, crate::specs::Sums::summary_of))]
pub fn unpacked(n: usize) -> Summary
    ensures { (row : List Stroke) → SumsAs n row → Sums result row }
{
    Summary {
        count: (n / 16384 % 1_048_576) as u32,
        most: (n / 512 % 32) as u32,
        source: n / 256 % 2 == 1,
        a: in_bits(n / 16 % 16),
        b: in_bits(n % 16),
    }
}
