// 33: a pattern begins that has no place.
ghost use Rattle.std.specs.Prelude.{◌≡◌, List, ℕ, ◌<◌};
ghost use Rattle.items.specs.Rows.{Sized};
ghost use Rattle.setting.specs.Views.{setting_as};
ghost use Rattle.scope.specs.Choice.{pick};
ghost use Rattle.scope.specs.Session.{Session};
ghost use Rattle.pattern_rows.specs.Numbers.{OfPage, OfSession};
ghost use Rattle.early.specs.Earlier.{EarliesIn};
ghost use Rattle.early.specs.Hatched.{Hatched};

use crate::early::{Early, OUTER};
use names::limits::PATTERNS_MOST;
use reader::Operator;
use refusal::{Code, Refusal};
use setting::Setting;

// The row of the numbers that are defined for the session, or for the page.
fn row_of(session: bool) -> usize
    ensures upper_bound { result < 67 }
    ensures value { result ≡ pick session OfSession OfPage }
{
    if session {
        pattern_rows::SESSION
    } else {
        pattern_rows::PAGE
    }
}

// BeginRastPattern: 33 for a new number with 32 defined at its persistence.
pub fn begin_pattern(
    job: &[u8],
    set: Setting,
    patterns: &[u16; 4487],
    attrs: &[usize; 80],
    o: Operator,
) -> Result<Early, Refusal>
    ensures { (t p : List ℕ) (x : Session) → Hatched patterns.now x → Sized attrs.now o.count → o.tag ≡ 0xb3
        → EarliesIn (setting_as set) t p job.now attrs.now x o result }
{
    let hatch = order::hatch_of(job, set.high, attrs, o.count);
    let row = row_of(hatch.session);
    if pattern_rows::count(patterns, row) < PATTERNS_MOST
        || pattern_rows::has(patterns, row, hatch.number)
    {
        return Ok(Early::Fine);
    }
    Err(Refusal {
        code: Code::PatternsFull,
        place: OUTER,
    })
}
