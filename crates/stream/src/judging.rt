// A motif judged when EndStream comes, and what is noted of it.
ghost use Rattle.std.specs.Prelude.{◌≡◌, List, [], ℕ, ◌≤◌, length};
ghost use Rattle.setting.specs.Views.{setting_as};
ghost use Rattle.scope.specs.Motif as scope;
ghost use Rattle.scope.specs.Motif.{Own, Motif, judged_inside, motif_of};
ghost use Rattle.motif.specs.Held.{Keeps};
ghost use Rattle.pattern_rows.specs.Numbers.{numbers_in, collected};
ghost use Rattle.patterns.specs.Selects.{selects_in};
ghost use Rattle.within.specs.Judging.{Follows, Judges, Notes};
ghost use Rattle.stream.specs.Lines.{Comes};

use crate::lines::run_from;
use both::both::Both;
use order::Picture;
use refusal::{Code, Refusal};
use setting::Setting;
use std::ops::ControlFlow;
use within::{Inside, Made, advance};

// Past the run of operators that stands next and leaves the page as it is, with no image open.
fn past_run(s: &[u8], set: Setting, inside: Inside) -> Inside
    requires { (inside.at ≤ length s.now) × (inside.saved ≤ inside.at) }
    ensures at_le_at { (inside.at ≤ result.at) × (result.at ≤ length s.now) × (result.saved ≤ result.at) }
    ensures by_index { (t : List ℕ) (ms : List Motif) (w : scope.Inside) → Follows t ms inside w → Comes t ms (setting_as set) s.now w result }
{
    let Picture::Nothing = inside.picture else {
        return inside;
    };
    let run = run_from(s, set.high, inside.at);
    Inside {
        at: run.at,
        both: inside.both.keep(run.count, run.drawn),
        ..inside
    }
}

// The operators of a motif whose header ends at `next`.
fn operators(
    s: &[u8],
    set: Setting,
    next: usize,
    motifs: &[usize; 704],
    held: usize,
    attrs: &mut [usize; 80],
    own: &mut [u16; 66],
) -> Result<Made, Refusal>
    requires { next ≤ length s.now }
    ensures attrs_len_unchanged { length attrs.new ≡ length attrs.old }
    ensures judges { (ms : List Motif) → length attrs.old ≡ 80 → Keeps motifs.now held ms
        → Judges motifs.now ms result (judged_inside (setting_as set) s.now (record { at = next; saved = 0; picture = scope.Picture.none; ops = [] })) }
    ensures own_len_unchanged { length own.new ≡ length own.old }
    ensures notes { (ms : List Motif) (ops : List Own) → length attrs.old ≡ 80 → Keeps motifs.now held ms
        → numbers_in own.old 0 ≡ []
        → judged_inside (setting_as set) s.now (record { at = next; saved = 0; picture = scope.Picture.none; ops = [] }) ≡ scope.valid ops
        → Notes own.new ops }
{
    let mut inside = Inside {
        at: next,
        saved: 0,
        picture: Picture::Nothing,
        calls: 0,
        missing: false,
        both: Both::fresh(),
    };
    loop {
        let from = past_run(s, set, inside);
        match advance(s, set, from, motifs, held, attrs, own) {
            ControlFlow::Continue(on) => inside = on,
            ControlFlow::Break(judged) => return judged,
        }
    }
}

// A motif of a job with this setting, where the table keeps these; what it selects itself is noted in `own`. It has the job's class, else 4.
pub fn judge_noting(
    s: &[u8],
    set: Setting,
    motifs: &[usize; 704],
    held: usize,
    own: &mut [u16; 66],
) -> Result<Made, Refusal>
    ensures own_len_unchanged { length own.new ≡ length own.old }
    ensures judges { (ms : List Motif) → Keeps motifs.now held ms → Judges motifs.now ms result (motif_of (setting_as set) s.now) }
    ensures own_after { (ms : List Motif) (ops : List Own) → Keeps motifs.now held ms → numbers_in own.old 0 ≡ []
        → motif_of (setting_as set) s.now ≡ scope.valid ops → numbers_in own.new 0 ≡ collected (selects_in ops) }
{
    let mut attrs = [0usize; 80];
    let header = header::header_of(s)?;
    if header.class != set.class {
        return Err(Refusal {
            code: Code::Class,
            place: 12,
        });
    }
    let of_motif = Setting {
        high: header.high,
        ..set
    };
    operators(s, of_motif, header.next, motifs, held, &mut attrs, own)
}

// A motif of a job with this setting, where the table keeps these. It has the job's class, else 4.
pub fn judge_motif(
    s: &[u8],
    set: Setting,
    motifs: &[usize; 704],
    held: usize,
) -> Result<Made, Refusal>
    ensures { (ms : List Motif) → Keeps motifs.now held ms → Judges motifs.now ms result (motif_of (setting_as set) s.now) }
{
    let mut own = [0u16; 66];
    judge_noting(s, set, motifs, held, &mut own)
}
