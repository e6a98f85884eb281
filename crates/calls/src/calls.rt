// What a call of a name comes to.
ghost use Rattle.std.specs.Prelude.{List, ◌<◌};
ghost use Rattle.scope.specs.Motif.{Motif};
ghost use Rattle.motif.specs.Held.{InRow};
ghost use Rattle.motif.specs.Tables.{Tables};
ghost use Rattle.pattern_rows.specs.Numbers.{OfPage, OfSession, numbers_in, SameRows, Few};
ghost use Rattle.patterns.specs.Selects.{Selects};
ghost use Rattle.calls.specs.Judged.{Calls};

use crate::bare::lacks_any;
use crate::why::why_not;
use motif::{LEVEL, ROW, SUM, find};
use refusal::Code;

// What a call comes to: its motif's summary, and whether a pattern that is selected there is not defined.
#[derive(Clone, Copy)]
pub struct Called {
    pub sum: usize,
    pub bare: bool,
}

// A call of the motif of row i: its summary, if it has a level, and whether a pattern is not defined; else why it is refused.
fn of_row(
    motifs: &[usize; 704],
    patterns: &mut [u16; 4487],
    held: usize,
    i: usize,
) -> Result<Called, Code>
    requires { i < 64 }
    ensures same_rows { SameRows patterns.old patterns.new }
    ensures selects { (ms : List Motif) → Tables motifs.now held ms → Selects patterns.old ms → Few patterns.old
        → Selects patterns.new ms }
    ensures calls { (ms : List Motif) (m : Motif) → Tables motifs.now held ms → Selects patterns.old ms
        → Few patterns.old → InRow ms i m
        → Calls (numbers_in patterns.old OfPage) (numbers_in patterns.old OfSession) ms m.name result }
{
    if motifs[i * ROW + LEVEL] == 0 {
        return Err(why_not(motifs, held, i));
    }
    Ok(Called {
        sum: motifs[i * ROW + SUM],
        bare: lacks_any(motifs, patterns, held, i),
    })
}

// A call of a name: 21 if it or one that it unfolds to is not held, 32 if a motif calls itself, 22 if calls nest over 32. That it lacks no pattern is remembered.
pub fn call_of(
    motifs: &[usize; 704],
    patterns: &mut [u16; 4487],
    held: usize,
    name: &[u8],
) -> Result<Called, Code>
    ensures same_rows { SameRows patterns.old patterns.new }
    ensures selects { (ms : List Motif) → Tables motifs.now held ms → Selects patterns.old ms → Few patterns.old
        → Selects patterns.new ms }
    ensures calls { (ms : List Motif) → Tables motifs.now held ms → Selects patterns.old ms → Few patterns.old
        → Calls (numbers_in patterns.old OfPage) (numbers_in patterns.old OfSession) ms name.now result }
{
    let Some(i) = find(motifs, held, name) else {
        return Err(Code::NotHeld);
    };
    of_row(motifs, patterns, held, i)
}
