// The arm on its way, operator by operator: the page, and what was seen.
ghost use Rattle.std.specs.Prelude.{◌≡◌, ◌||◌, ◌&&◌, List, ◌∷◌, min, length};
ghost use Rattle.scope.specs.Arm.{clash, step, walk, from, idle, Stroke};
ghost use Rattle.scope.specs.Arm.{Seen as ArmSeen};
ghost use Rattle.page.specs.Views.{page_as, space_as, act_as};
ghost use Rattle.arm.specs.Codes.{code_of, number_in};
ghost use Rattle.arm.specs.Holds.{Holds};
ghost use Rattle.summary.specs.Sums.{Sums};
ghost use Rattle.arm.specs.Rows.{ends_at, Kept};

use counts::{add, higher};
use names::limits::PERFORMED_MOST;
use page::page::{Act, Page, Space};
use refusal::Code;
use summary::{Ending, Summary};

// The page; the operators performed (past 1,000,000 always 1,000,001); the most states saved right after a PushGS (past 24 always 25); whether an open source
// was needed, a cursor needed and not set, a colour space needed and another set. The patterns that were selected are not kept here.
#[derive(Clone, Copy)]
pub struct Seen {
    pub page: Page,
    pub count: u32,
    pub most: u32,
    pub source: bool,
    pub lost: bool,
    pub wrong: bool,
}

fn clashes(space: Space, gray: bool) -> bool
    ensures { result ≡ clash (space_as space) gray }
{
    match space {
        Space::Any => false,
        Space::Gray => !gray,
        Space::Rgb => gray,
    }
}

// The page after a motif with these endings: what it saves it takes off again.
fn ends_at(page: Page, a: Ending, b: Ending) -> Page
    ensures { result ≡ ends_at page a b }
{
    Page {
        cursor: if page.cursor { a.cursor } else { b.cursor },
        gray: if page.gray { a.gray } else { b.gray },
        ..page
    }
}

impl Seen {
    // The arm before an operator of the job: nothing seen yet.
    pub fn from(page: Page, performed: u32) -> Seen
        ensures { Holds result (from (page_as page) performed) }
    {
        Seen {
            page,
            count: if performed <= PERFORMED_MOST {
                performed
            } else {
                1_000_001
            },
            most: 0,
            source: false,
            lost: false,
            wrong: false,
        }
    }

    // One operator performed.
    pub fn step(self, act: Act) -> Seen
        ensures { (w : ArmSeen) → Holds self w → Holds result (step (act_as act) w) }
    {
        let page = self.page;
        let source = self.source || act.source;
        let lost = self.lost || (act.cursor && !page.cursor);
        let wrong = self.wrong || clashes(act.space, page.gray);
        Seen {
            page: page.done(act.effect),
            count: add(self.count, 1),
            most: page.risen(act.effect, self.most),
            source,
            lost,
            wrong,
        }
    }

    // So many operators performed that leave the page as it is, where one of them needs the cursor set or none does.
    pub fn keep(self, count: u32, cursor: bool) -> Seen
        ensures { (w : ArmSeen) (row : List Stroke) → Holds self w → Kept cursor row → count ≡ min (length row) 1_000_001 → Holds result (walk row w) }
    {
        Seen {
            count: add(self.count, count),
            lost: self.lost || (cursor && !self.page.cursor),
            ..self
        }
    }

    // A call performed, with its motif's operators besides, from what the motif comes to.
    pub fn call(self, summary: Summary) -> Seen
        ensures { (w : ArmSeen) (x : Stroke) (row : List Stroke) → Holds self w → x.act ≡ idle → Sums summary row → Holds result (walk (x ∷ row) w) }
    {
        let page = self.page;
        let a = summary.a;
        let b = summary.b;
        let source = self.source || summary.source;
        let lost = self.lost || if page.cursor { a.lost } else { b.lost };
        let wrong = self.wrong || if page.gray { a.wrong } else { b.wrong };
        Seen {
            page: ends_at(page, a, b),
            count: add(add(self.count, 1), summary.count),
            most: higher(self.most, page.depth, summary.most),
            source,
            lost,
            wrong,
        }
    }

    // No rule was broken on the way, or the first that was; `bare` says whether a pattern that was selected is not defined.
    pub(crate) fn obeys(self, opened: bool, bare: bool) -> Result<(), Code>
        ensures { (w : ArmSeen) → Holds self w → number_in result ≡ code_of opened bare w }
    {
        if self.source && !opened {
            return Err(Code::Source);
        }
        if 25 <= self.most {
            return Err(Code::Saved);
        }
        if self.lost {
            return Err(Code::Cursor);
        }
        if self.wrong {
            return Err(Code::Colour);
        }
        if bare {
            return Err(Code::NoPattern);
        }
        if 1_000_001 <= self.count {
            return Err(Code::TooMany);
        }
        Ok(())
    }
}
