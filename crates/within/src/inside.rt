// One operator of a motif that is being judged: where the judging stands behind it, or how it has ended.
ghost use Rattle.std.specs.Prelude.{◌≡◌, List, [], ◌∷◌, ◌++◌, true, ℕ, ◌+◌, ◌^◌, ◌≤◌, ◌<◌, length, eqb};
ghost use Rattle.items.specs.Rows.{rows_of, Sized};
ghost use Rattle.scope.specs.Choice.{pick};
ghost use Rattle.scope.specs.Setting.{Setting as SettingSetting};
ghost use Rattle.setting.specs.Views.{setting_as};
ghost use Rattle.scope.specs.Motif as scope;
ghost use Rattle.scope.specs.Motif.{Own, Motif, phase_in, saved_after, motif_step, own_by, on_end};
ghost use Rattle.scope.specs.Order.{rows_fit};
ghost use Rattle.order.specs.Views.{phase_as};
ghost use Rattle.reader.specs.Reads.{operator_as};
ghost use Rattle.motif.specs.Held.{Keeps};
ghost use Rattle.order.specs.Pictures.{picture_as, image_in};
ghost use Rattle.page.specs.Views.{select_as};
ghost use Rattle.pattern_rows.specs.Numbers.{numbers_in};
ghost use Rattle.within.specs.Judging.{Follows, Turns, Judges, Ahead, Called, after_in, noted_by, Notes, NotesOn};

use act::act_of;
use both::both::Both;
use key::{name_in, with_mark};
use motif::{ROW, SUM, find};
use names::operators::{EXEC_STREAM, POP_GS, PUSH_GS};
use order::{Phase, Picture, picture_after};
use reader::{Context, Operator};
use refusal::{Code, Refusal};
use setting::Setting;
use std::ops::ControlFlow;
use summary::EMPTY;

// What is noted of a valid motif: its summary, where a call performs besides what the table sums up for its name; a mark for each row that it calls; and whether it
// names a motif that is not held.
#[derive(Clone, Copy)]
pub struct Made {
    pub sum: usize,
    pub calls: usize,
    pub missing: bool,
}

// Where the judging of a motif stands.
#[derive(Clone, Copy)]
pub struct Inside {
    pub at: usize,
    pub saved: usize,
    pub picture: Picture,
    pub calls: usize,
    pub missing: bool,
    pub both: Both,
}

// Where an operator of a motif stands: in its image, if one is open, or in a pattern.
#[tactic(auto, unfolding(scope::specs::Motif::phase_in))]
fn phase_in(saved: usize, picture: Picture) -> Phase
    ensures { phase_as result ≡ phase_in saved (picture_as picture) }
{
    match picture {
        Picture::Nothing => Phase::InMotif(saved),
        Picture::Being(image) => Phase::InImage(image),
        Picture::Hatching(image, _) => Phase::InPattern(image),
    }
}

// How many states are saved after an operator.
#[tactic(auto, unfolding(scope::specs::Motif::saved_after))]
fn saved_after(tag: u8, saved: usize) -> usize
    requires { saved < 2 ^ 63 }
    ensures { result ≡ saved_after tag saved }
{
    match tag {
        PUSH_GS => saved + 1,
        POP_GS => saved.saturating_sub(1),
        _ => saved,
    }
}

// A call leads past itself and performs what this summary sums up besides; saved states and image stay as they are.
fn called(inside: Inside, next: usize, calls: usize, missing: bool, sum: usize) -> Inside
    ensures { Called inside next calls missing sum result }
{
    Inside {
        at: next,
        calls,
        missing,
        both: inside.both.call(summary::unpacked(sum)),
        ..inside
    }
}

// A call: its name's row is marked, and performs what the table sums up for it; a name that is not held is noted, and performs nothing.
fn call(
    s: &[u8],
    o: Operator,
    attrs: &[usize; 80],
    inside: Inside,
    motifs: &[usize; 704],
    held: usize,
) -> Inside
    ensures at_value { (result.at ≡ o.next) × (result.saved ≤ inside.saved + 1) }
    ensures follows { (set : SettingSetting) (ms : List Motif) (w : scope.Inside) → Sized attrs.now o.count → Keeps motifs.now held ms
        → o.tag ≡ 0x5e → Follows motifs.now ms inside w
        → Follows motifs.now ms result (after_in set s.now (operator_as o attrs.now) w) }
{
    let name = name_in(s, attrs, o.count);
    let first = name.first;
    let end = first + name.count;
    match find(motifs, held, &s[first..end]) {
        None => called(inside, o.next, inside.calls, true, EMPTY),
        Some(i) => called(
            inside,
            o.next,
            with_mark(inside.calls, i),
            inside.missing,
            motifs[i * ROW + SUM],
        ),
    }
}

// The pattern that an operator selects is noted.
fn note_select(own: &mut [u16; 66], select: Option<u16>)
    ensures own_len_unchanged { length own.new ≡ length own.old }
    ensures own_after { numbers_in own.new 0 ≡ noted_by (select_as select) (numbers_in own.old 0) }
{
    if let Some(number) = select {
        patterns::note(own, number);
    }
}

// An operator that is no call.
fn deed(
    s: &[u8],
    set: Setting,
    o: Operator,
    attrs: &[usize; 80],
    inside: Inside,
    own: &mut [u16; 66],
) -> Inside
    requires { inside.saved < 2 ^ 63 }
    ensures own_len_unchanged { length own.new ≡ length own.old }
    ensures notes { (ops : List Own) → Sized attrs.now o.count → (o.tag ≡ 0x5e → ⊥) → Notes own.old ops
        → Notes own.new (ops ++ (own_by (setting_as set) s.now (operator_as o attrs.now) ∷ [])) }
    ensures at_value { (result.at ≡ o.next) × (result.saved ≤ inside.saved + 1) }
    ensures by_index { (t : List ℕ) (ms : List Motif) (w : scope.Inside) → Sized attrs.now o.count → (o.tag ≡ 0x5e → ⊥) → Follows t ms inside w
        → rows_fit set.high s.now (image_in w.picture) o.tag (rows_of attrs.now o.count) ≡ true → (o.tag ≡ 0x60 → 0 < w.saved)
        → Follows t ms result (after_in (setting_as set) s.now (operator_as o attrs.now) w) }
{
    let tag = o.tag;
    let picture = inside.picture;
    let both = inside.both;
    let act = act_of(s, set.high, set.gray, tag, o.reads, attrs, o.count);
    let after = picture_after(s, set.high, tag, attrs, o.count, picture);
    let next = both.step(act);
    let saved = saved_after(tag, inside.saved);
    note_select(own, act.select);
    Inside {
        at: o.next,
        saved,
        picture: after,
        calls: inside.calls,
        missing: inside.missing,
        both: next,
    }
}

// As many PopGS as PushGS, else 27.
fn balanced(len: usize, inside: Inside) -> Result<Made, Refusal>
    ensures { (t : List ℕ) (ms : List Motif) (w : scope.Inside) → Follows t ms inside w
        → Judges t ms result (pick (eqb w.saved 0) (scope.valid w.ops) (scope.faulty 27 len)) }
{
    if inside.saved != 0 {
        return Err(Refusal {
            code: Code::NotEnded,
            place: len,
        });
    }
    Ok(Made {
        sum: inside.both.summary().packed(),
        calls: inside.calls,
        missing: inside.missing,
    })
}

// The end: no image open and as many PopGS as PushGS, else 27.
fn ended(len: usize, inside: Inside) -> Result<Made, Refusal>
    ensures { (t : List ℕ) (ms : List Motif) (w : scope.Inside) (s : List ℕ) → length s ≡ len → Follows t ms inside w → Judges t ms result (on_end s w w.picture) }
{
    let Picture::Nothing = inside.picture else {
        return Err(Refusal {
            code: Code::NotEnded,
            place: len,
        });
    };
    balanced(len, inside)
}

// One operator of a motif: the judging goes on, or has ended, with what is noted of a valid motif, or a refusal and its place inside the motif.
pub fn advance(
    s: &[u8],
    set: Setting,
    inside: Inside,
    motifs: &[usize; 704],
    held: usize,
    attrs: &mut [usize; 80],
    own: &mut [u16; 66],
) -> ControlFlow<Result<Made, Refusal>, Inside>
    requires { (inside.at ≤ length s.now) × (inside.saved ≤ inside.at) }
    ensures attrs_len_unchanged { length attrs.new ≡ length attrs.old }
    ensures ahead { Ahead (length s.now) inside.at result }
    ensures turns { (ms : List Motif) (w : scope.Inside) → length attrs.old ≡ 80 → Keeps motifs.now held ms
        → Follows motifs.now ms inside w → Turns motifs.now ms result (motif_step (setting_as set) s.now w) }
    ensures own_len_unchanged { length own.new ≡ length own.old }
    ensures notes_on { (ms : List Motif) (w : scope.Inside) → length attrs.old ≡ 80 → Follows motifs.now ms inside w
        → NotesOn own.old own.new w.ops (motif_step (setting_as set) s.now w) }
{
    let picture = inside.picture;
    let context = Context {
        set,
        phase: phase_in(inside.saved, picture),
        opened: true,
        asked: false,
    };
    match reader::operator_at(context, s, inside.at, attrs) {
        Err(refusal) => ControlFlow::Break(Err(refusal)),
        Ok(None) => ControlFlow::Break(ended(s.len(), inside)),
        Ok(Some(o)) => {
            if o.tag == EXEC_STREAM {
                return ControlFlow::Continue(call(s, o, attrs, inside, motifs, held));
            }
            ControlFlow::Continue(deed(s, set, o, attrs, inside, own))
        }
    }
}
