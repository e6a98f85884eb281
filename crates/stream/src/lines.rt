// Operators of a motif that leave the page as it is, with no image open: lines by their end point, CloseSubPath and PaintPath. A run of them is only counted.
ghost use Rattle.std.specs.Prelude.{◌≡◌, true, ℕ, ◌≤◌, length};
ghost use Rattle.stream.specs.Lines.{Quiet, Strip, Stripped, Beyond};

use end_point::line_to;
use names::operators::{CLOSE_SUB_PATH, PAINT_PATH};

// Where a run has come to, of how many operators, and whether a line is among them.
#[derive(Clone, Copy)]
pub struct Run {
    pub at: usize,
    pub count: usize,
    pub drawn: bool,
}

// CloseSubPath or PaintPath: the tag alone, that needs nothing and does nothing to the page.
#[tactic(auto, using(crate::specs::Lines::quiet_close, crate::specs::Lines::quiet_paint))]
fn is_quiet(tag: u8) -> bool
    ensures { result ≡ true → Quiet tag }
{
    matches!(tag, CLOSE_SUB_PATH | PAINT_PATH)
}

// One operator more, or the run ends.
#[tactic(auto, using(crate::specs::Lines::strip_line, crate::specs::Lines::strip_quiet))]
fn pass_one(s: &[u8], high: bool, run: Run) -> Option<Run>
    requires { run.count ≤ run.at }
    ensures beyond { Beyond (length s.now) run result }
    ensures by_index { (start : ℕ) → Strip high s.now start run → Stripped high s.now start result }
{
    let at = run.at;
    if s.len() <= at {
        return None;
    }
    if is_quiet(s[at]) {
        return Some(Run {
            at: at + 1,
            count: run.count + 1,
            drawn: run.drawn,
        });
    }
    let op = line_to(s, high, at)?;
    Some(Run {
        at: op + 1,
        count: run.count + 1,
        drawn: true,
    })
}

// The whole of a run from `at` on.
#[tactic(auto, using(crate::specs::Lines::strip_none))]
pub(crate) fn run_from(s: &[u8], high: bool, at: usize) -> Run
    requires { at ≤ length s.now }
    ensures at_le_at { (at ≤ result.at) × (result.at ≤ length s.now) }
    ensures strip { Strip high s.now at result }
{
    let mut run = Run {
        at,
        count: 0,
        drawn: false,
    };
    while let Some(on) = pass_one(s, high, run) {
        run = on;
    }
    run
}
