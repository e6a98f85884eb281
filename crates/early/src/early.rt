// The rules of motifs and their names, and of places for patterns: 19, 33, those of a motif that EndStream holds, 21, 32 and 22.
ghost use Rattle.std.specs.Prelude.{◌≡◌, true, List, ℕ, ◌+◌, ◌≤◌, length, take, drop};
ghost use Rattle.items.specs.Rows.{rows_of, Sized};
ghost use Rattle.scope.specs.Setting.{Setting as setting_of};
ghost use Rattle.setting.specs.Views.{setting_as};
ghost use Rattle.scope.specs.Attributes.{bytes_in};
ghost use Rattle.scope.specs.Motif.{bytes_held};
ghost use Rattle.scope.specs.Order.{may_come, in_session};
ghost use Rattle.scope.specs.Session as scope;
ghost use Rattle.scope.specs.Session.{Session, session_of, phase_busy, phase_of, joined_of};
ghost use Rattle.scope.specs.Judge.{State, case_of};
ghost use Rattle.reader.specs.Reads.{operator_as};
ghost use Rattle.motif.specs.Held.{Keeps};
ghost use Rattle.motif.specs.Tables.{Tables};
ghost use Rattle.motif.specs.Stored.{Stored};
ghost use Rattle.pattern_rows.specs.Numbers.{OfMotif, selecting_in, Others, OtherRows, SameRows};
ghost use Rattle.patterns.specs.Selects.{Selects};
ghost use Rattle.place.specs.Places.{BusyHolds, PlaceHolds, Hatches, Drawn};
ghost use Rattle.early.specs.Earlier.{Earlies, EarliesIn};
ghost use Rattle.early.specs.Hatched.{Hatched};
ghost use Rattle.place.specs.declared.place.Busy.TheVariants as busy_is;

use crate::hatching::begin_pattern;
use motif::Kept;
use names::limits::{MOTIFS_MOST, STORE_MOST};
use names::operators::{BEGIN_RAST_PATTERN, BEGIN_STREAM, EXEC_STREAM, READ_STREAM};
use place::{Busy, Place};
use reader::Operator;
use refusal::{Code, Refusal};
use setting::Setting;
use within::Made;

// The place of a refusal is that inside the motif that ends, which is the inner position of the verdict; any other refusal has this.
pub const OUTER: usize = 4_294_967_295;

// What an operator that breaks none of these rules goes on with: a call with its motif's summary, and whether a pattern that is selected there is not defined;
// EndStream with what is noted of the motif.
#[derive(Clone, Copy)]
pub enum Early {
    Fine,
    Call(usize, bool),
    Held(Made),
}

// BeginStream: 19 for a new name with 64 held.
fn begin_stream(
    job: &[u8],
    motifs: &[usize; 704],
    attrs: &[usize; 80],
    held: usize,
    o: Operator,
) -> Result<Early, Refusal>
    ensures { (set : setting_of) (p : List ℕ) (x : Session) → Keeps motifs.now held x.held → Sized attrs.now o.count
        → o.tag ≡ 0x5b → EarliesIn set motifs.now p job.now attrs.now x o result }
{
    if held < MOTIFS_MOST {
        return Ok(Early::Fine);
    }
    let name = key::name_in(job, attrs, o.count);
    let first = name.first;
    let count = name.count;
    match motif::find(motifs, held, &job[first..first + count]) {
        Some(_) => Ok(Early::Fine),
        None => Err(Refusal {
            code: Code::NoRoom,
            place: OUTER,
        }),
    }
}

// In a session at rest.
fn resting_early(
    job: &[u8],
    motifs: &[usize; 704],
    attrs: &[usize; 80],
    held: usize,
    o: Operator,
) -> Result<Early, Refusal>
    ensures { (set : setting_of) (p : List ℕ) (x : Session) → Keeps motifs.now held x.held → Sized attrs.now o.count
        → may_come in_session x.opened o.tag ≡ true → EarliesIn set motifs.now p job.now attrs.now x o result }
{
    if o.tag == BEGIN_STREAM {
        return begin_stream(job, motifs, attrs, held, o);
    }
    Ok(Early::Fine)
}

// ReadStream: 19 past 16,384 bytes, a motif that is being replaced among them.
fn read_stream(used: usize, joined: usize, o: Operator) -> Result<Early, Refusal>
    ensures { (set : setting_of) (t p job attrs : List ℕ) (x : Session) → used ≡ bytes_held x.held → joined ≡ length (joined_of x.busy)
        → used + joined ≤ 16384 → o.tag ≡ 0x5c → EarliesIn set t p job attrs x o result }
{
    if STORE_MOST.saturating_sub(used).saturating_sub(joined) < o.length {
        return Err(Refusal {
            code: Code::NoRoom,
            place: OUTER,
        });
    }
    Ok(Early::Fine)
}

// EndStream: a faulty motif gives its own code, and the position inside it; what a valid one selects is kept.
fn end_stream(
    set: Setting,
    work: &[u8],
    motifs: &[usize; 704],
    patterns: &mut [u16; 4487],
    kept: Kept,
    joined: usize,
) -> Result<Early, Refusal>
    ensures others { Others patterns.old OfMotif patterns.new }
    ensures patterns_unchanged { selecting_in patterns.new ≡ selecting_in patterns.old }
    ensures by_index { (job attrs : List ℕ) (x : Session) (o : Operator) → Keeps motifs.now kept.held x.held
        → 16384 ≤ length work.now → kept.used + joined ≤ 16384
        → take joined (drop kept.used work.now) ≡ joined_of x.busy → o.tag ≡ 0x5d
        → EarliesIn (setting_as set) motifs.now patterns.new job attrs x o result }
{
    let used = kept.used;
    if work.len() < used || work.len() - used < joined {
        return Err(Refusal {
            code: Code::NoRoom,
            place: OUTER,
        });
    }
    let mut own = [0u16; 66];
    let made = stream::judge_noting(&work[used..used + joined], set, motifs, kept.held, &mut own)?;
    patterns::take_own(patterns, &own);
    Ok(Early::Held(made))
}

// While a motif is read.
fn reading_early(
    set: Setting,
    work: &[u8],
    motifs: &[usize; 704],
    patterns: &mut [u16; 4487],
    kept: Kept,
    joined: usize,
    o: Operator,
) -> Result<Early, Refusal>
    ensures others { Others patterns.old OfMotif patterns.new }
    ensures patterns_unchanged { selecting_in patterns.new ≡ selecting_in patterns.old }
    ensures by_index { (job attrs : List ℕ) (x : Session) (first count : ℕ) → Stored (setting_as set) work.now motifs.now kept x.held
        → BusyHolds job work.now patterns.old kept x.held (busy_is.Reading first count joined) x.busy
        → 16384 ≤ length work.now → may_come (phase_busy x.busy) x.opened o.tag ≡ true
        → EarliesIn (setting_as set) motifs.now patterns.new job attrs x o result }
{
    if o.tag == READ_STREAM {
        return read_stream(kept.used, joined, o);
    }
    end_stream(set, work, motifs, patterns, kept, joined)
}

// ExecStream of a name: what a call of it comes to, from the tables alone.
fn exec_stream(
    motifs: &[usize; 704],
    patterns: &mut [u16; 4487],
    held: usize,
    name: &[u8],
) -> Result<Early, Refusal>
    ensures same_rows { SameRows patterns.old patterns.new }
    ensures selects { (x : Session) → Tables motifs.now held x.held → Selects patterns.old x.held
        → Hatched patterns.old x → Selects patterns.new x.held }
    ensures earlies_in { (set : setting_of) (p job attrs : List ℕ) (x : Session) (o : Operator) → Tables motifs.now held x.held
        → Selects patterns.old x.held → Hatched patterns.old x
        → name.now ≡ bytes_in job (rows_of attrs o.count) 139 → o.tag ≡ 0x5e → EarliesIn set motifs.now p job attrs x o result }
{
    match calls::call_of(motifs, patterns, held, name) {
        Ok(called) => Ok(Early::Call(called.sum, called.bare)),
        Err(code) => Err(Refusal { code, place: OUTER }),
    }
}

// In a page, perhaps with an image or a pattern open.
fn drawing_early(
    job: &[u8],
    set: Setting,
    motifs: &[usize; 704],
    patterns: &mut [u16; 4487],
    attrs: &[usize; 80],
    held: usize,
    o: Operator,
) -> Result<Early, Refusal>
    ensures same_rows { SameRows patterns.old patterns.new }
    ensures selects { (x : Session) → Tables motifs.now held x.held → Selects patterns.old x.held
        → Hatched patterns.old x → Selects patterns.new x.held }
    ensures by_index { (p : List ℕ) (x : Session) → Tables motifs.now held x.held → Selects patterns.old x.held
        → Hatched patterns.old x → Sized attrs.now o.count
        → Drawn x.busy → may_come (phase_busy x.busy) x.opened o.tag ≡ true
        → EarliesIn (setting_as set) motifs.now p job.now attrs.now x o result }
{
    if o.tag == BEGIN_RAST_PATTERN {
        return begin_pattern(job, set, patterns, attrs, o);
    }
    if o.tag != EXEC_STREAM {
        return Ok(Early::Fine);
    }
    let name = key::name_in(job, attrs, o.count);
    let first = name.first;
    let count = name.count;
    exec_stream(motifs, patterns, held, &job[first..first + count])
}

// In a session.
fn inside_early(
    job: &[u8],
    set: Setting,
    work: &[u8],
    motifs: &[usize; 704],
    patterns: &mut [u16; 4487],
    attrs: &[usize; 80],
    kept: Kept,
    busy: Busy,
    o: Operator,
) -> Result<Early, Refusal>
    ensures other_rows { OtherRows patterns.old OfMotif patterns.new }
    ensures patterns_unchanged { selecting_in patterns.new ≡ selecting_in patterns.old }
    ensures selects { (x : Session) → Stored (setting_as set) work.now motifs.now kept x.held
        → Hatches patterns.old x.held x.patterns
        → BusyHolds job.now work.now patterns.old kept x.held busy x.busy
        → Selects patterns.new x.held }
    ensures earlies_in { (x : Session) → Stored (setting_as set) work.now motifs.now kept x.held
        → Hatches patterns.old x.held x.patterns
        → BusyHolds job.now work.now patterns.old kept x.held busy x.busy → Sized attrs.now o.count
        → 16384 ≤ length work.now → may_come (phase_busy x.busy) x.opened o.tag ≡ true
        → EarliesIn (setting_as set) motifs.now patterns.new job.now attrs.now x o result }
{
    match busy {
        Busy::Resting => resting_early(job, motifs, attrs, kept.held, o),
        Busy::Reading(_, _, joined) => reading_early(set, work, motifs, patterns, kept, joined, o),
        Busy::Drawing(_, _) => drawing_early(job, set, motifs, patterns, attrs, kept.held, o),
    }
}

// These rules, of any operator that may come; the patterns keep what the motif that ends selects, and that a call lacks none of them.
pub fn early_of(
    job: &[u8],
    set: Setting,
    work: &[u8],
    motifs: &[usize; 704],
    patterns: &mut [u16; 4487],
    attrs: &[usize; 80],
    place: Place,
    o: Operator,
) -> Result<Early, Refusal>
    ensures other_rows { OtherRows patterns.old OfMotif patterns.new }
    ensures patterns_unchanged { selecting_in patterns.new ≡ selecting_in patterns.old }
    ensures place_holds { (q : scope.Place)
        → PlaceHolds (setting_as set) job.now work.now motifs.now patterns.old place q
        → PlaceHolds (setting_as set) job.now work.now motifs.now patterns.new place q }
    ensures earlies { (q : scope.Place) (st : State)
        → PlaceHolds (setting_as set) job.now work.now motifs.now patterns.old place q
        → Sized attrs.now o.count → 16384 ≤ length work.now
        → may_come (phase_of q) (session_of q).opened o.tag ≡ true
        → Earlies motifs.now patterns.new (case_of (setting_as set) job.now st (session_of q) (operator_as o attrs.now)) result }
{
    match place {
        Place::Outside(_) => Ok(Early::Fine),
        Place::Inside(_, kept, busy) => {
            inside_early(job, set, work, motifs, patterns, attrs, kept, busy, o)
        }
    }
}
