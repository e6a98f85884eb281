// The two runs of a motif's operators while it is being read: from a set cursor and gray, and from no cursor and RGB.
ghost use Rattle.std.specs.Prelude.{◌≡◌, List, [], ◌∷◌, ◌++◌, ◌≤◌, length};
ghost use Rattle.scope.specs.Arm.{idle, Stroke};
ghost use Rattle.scope.specs.Arm.{Seen as ArmSeen};
ghost use Rattle.arm.specs.Holds.{Holds};
ghost use Rattle.page.specs.Views.{act_as};
ghost use Rattle.summary.specs.Balance.{Balanced};
ghost use Rattle.summary.specs.Sums.{fresh, Ends, Sums};
ghost use Rattle.arm.specs.Rows.{Kept};
ghost use Rattle.both.specs.Runs.{Runs};

use arm::seen::Seen;
use counts::capped;
use page::page::{Act, Page};
use summary::{Ending, Summary};

#[derive(Clone, Copy)]
pub struct Both {
    pub a: Seen,
    pub b: Seen,
}

// The arm at a start: cursor set and gray, or cursor not set and RGB.
fn at_start(b: bool) -> Seen
    ensures { Holds result (fresh b) }
{
    let page = Page {
        cursor: b,
        gray: b,
        depth: 0,
        saved: 0,
    };
    Seen::from(page, 0)
}

fn ended(seen: Seen) -> Ending
    ensures { (w : ArmSeen) → Holds seen w → w.most ≤ 24 → Ends result w }
{
    Ending {
        cursor: seen.page.cursor,
        gray: seen.page.gray,
        lost: seen.lost,
        wrong: seen.wrong,
    }
}

impl Both {
    // No operator yet.
    pub fn fresh() -> Both
        ensures { Runs result [] }
    {
        Both {
            a: at_start(true),
            b: at_start(false),
        }
    }

    // An operator more, that is no call.
    pub fn step(self, act: Act) -> Both
        ensures { (row : List Stroke) (x : Stroke) → Runs self row → x.act ≡ act_as act → Runs result (row ++ (x ∷ [])) }
    {
        Both {
            a: self.a.step(act),
            b: self.b.step(act),
        }
    }

    // So many operators more that leave the page as it is, where one of them needs the cursor set or none does.
    pub fn keep(self, count: usize, cursor: bool) -> Both
        ensures { (row more : List Stroke) → Runs self row → Kept cursor more → count ≡ length more → Runs result (row ++ more) }
    {
        let few = capped(count);
        Both {
            a: self.a.keep(few, cursor),
            b: self.b.keep(few, cursor),
        }
    }

    // A call more, with its motif's operators.
    pub fn call(self, summary: Summary) -> Both
        ensures { (row called : List Stroke) (x : Stroke) → Runs self row → x.act ≡ idle → Sums summary called → Runs result (row ++ (x ∷ called)) }
    {
        Both {
            a: self.a.call(summary),
            b: self.b.call(summary),
        }
    }

    // What the row comes to, at its end.
    pub fn summary(self) -> Summary
        ensures { (row : List Stroke) → Runs self row → Balanced row → Sums result row }
    {
        Summary {
            count: self.a.count,
            most: self.a.most,
            source: self.a.source,
            a: ended(self.a),
            b: ended(self.b),
        }
    }
}
