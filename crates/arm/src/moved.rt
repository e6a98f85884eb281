// An operator or a call in a page of the job: the page after it and the number performed, or a refusal.
ghost use Rattle.std.specs.Prelude.{◌≡◌, false, ℕ, ◌≤◌, length, List, [], ◌∷◌};
ghost use Rattle.scope.specs.Arm.{walk, from, idle, Stroke};
ghost use Rattle.scope.specs.Arm.{Page as ArmPage};
ghost use Rattle.page.specs.Views.{act_as, keeping};
ghost use Rattle.page.specs.Holds.{PageHolds};
ghost use Rattle.arm.specs.Holds.{Holds, Moves};
ghost use Rattle.summary.specs.Sums.{Sums};

use crate::seen::Seen;
use names::limits::PERFORMED_MOST;
use page::page::{Act, Page};
use refusal::Code;
use summary::Summary;

// The page after it, and the number performed.
#[derive(Clone, Copy)]
pub struct Moved {
    pub page: Page,
    pub performed: u32,
}

// The answer, from what was seen.
fn answer(seen: Seen, opened: bool, bare: bool) -> Result<Moved, Code>
    ensures { (q : ArmPage) (n : ℕ) (row : List Stroke) → length q.saved ≤ 24 → Holds seen (walk row (from q n)) → Moves opened bare result (walk row (from q n)) }
{
    seen.obeys(opened, bare)?;
    Ok(Moved {
        page: seen.page,
        performed: seen.count,
    })
}

// An operator that is no call; `bare` says whether it selects a pattern that is not defined.
pub fn perform(
    page: Page,
    act: Act,
    opened: bool,
    bare: bool,
    performed: u32,
) -> Result<Moved, Code>
    ensures { (q : ArmPage) (x : Stroke) → PageHolds page q → x.act ≡ act_as act → Moves opened bare result (walk (x ∷ []) (from q performed)) }
{
    answer(Seen::from(page, performed).step(act), opened, bare)
}

// An operator that leaves the page as it is, selects no pattern, and needs at most an open source and a set cursor: most are so.
pub fn keep(
    page: Page,
    source: bool,
    cursor: bool,
    opened: bool,
    performed: u32,
) -> Result<Moved, Code>
    ensures { (q : ArmPage) (x : Stroke) → PageHolds page q → x.act ≡ keeping source cursor → Moves opened false result (walk (x ∷ []) (from q performed)) }
{
    if source && !opened {
        return Err(Code::Source);
    }
    if cursor && !page.cursor {
        return Err(Code::Cursor);
    }
    if PERFORMED_MOST <= performed {
        return Err(Code::TooMany);
    }
    Ok(Moved {
        page,
        performed: performed + 1,
    })
}

// A call, from what its motif comes to; `bare` says whether that selects a pattern that is not defined.
pub fn call(
    page: Page,
    summary: Summary,
    opened: bool,
    bare: bool,
    performed: u32,
) -> Result<Moved, Code>
    ensures { (q : ArmPage) (x : Stroke) (row : List Stroke) → PageHolds page q → x.act ≡ idle → Sums summary row → Moves opened bare result (walk (x ∷ row) (from q performed)) }
{
    answer(Seen::from(page, performed).call(summary), opened, bare)
}
