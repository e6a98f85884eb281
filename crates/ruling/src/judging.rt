// The rules after reading but for the list: 19, 33, a motif's own, 21, 32, 22, 17, 23 to 25, 34, 26.
ghost use Rattle.std.specs.Prelude.{◌≡◌, true, false, List, [], ℕ, ◌<◌, eqb, Ok, IfErr};
ghost use Rattle.items.specs.Rows.{Sized};
ghost use Rattle.scope.specs.Setting.{Setting as setting_of};
ghost use Rattle.setting.specs.Views.{setting_as};
ghost use Rattle.scope.specs.Reading as reading;
ghost use Rattle.scope.specs.Session as scope;
ghost use Rattle.scope.specs.Arm.{wanted};
ghost use Rattle.scope.specs.Order.{may_come};
ghost use Rattle.scope.specs.Session.{phase_of, session_of};
ghost use Rattle.scope.specs.Judge.{State, Case, case_of, some_missing, outer};
ghost use Rattle.page.specs.Views.{select_as};
ghost use Rattle.pattern_rows.specs.Numbers.{OfPage, OfSession, numbers_in};
ghost use Rattle.reader.specs.Reads.{operator_as};
ghost use Rattle.place.specs.Places.{PlaceHolds};
ghost use Rattle.early.specs.Earlier.{Earlies, Unbroken};
ghost use Rattle.early.specs.declared.early.Early.TheVariants as early_is;
ghost use Rattle.ruling.specs.Judged.{Judgement, inner_of};

use arm::moved::Moved;
use early::Early;
use place::Place;
use reader::Operator;
use refusal::{Code, Refusal};
use setting::Setting;
use state::OUTER;

// The inner position of a refusal: its own where an earlier rule is broken, and none where one of the page is.
pub fn inner_of(early: Result<Early, Refusal>) -> u32
    ensures value { (t p : List ℕ) (c : Case) → Earlies t p c early → result ≡ inner_of early }
    ensures refused { IfErr early (λ r. r.place < 4_294_967_296 → result ≡ r.place) }
{
    match early {
        Ok(_) => OUTER,
        Err(refusal) => (refusal.place % 4_294_967_296) as u32,
    }
}

// A pattern is selected that is not defined.
fn bare_of(patterns: &[u16; 4487], select: Option<u16>) -> bool
    ensures { result ≡ some_missing (numbers_in patterns.now OfPage) (numbers_in patterns.now OfSession) (wanted (select_as select) []) }
{
    match select {
        None => false,
        Some(number) => !pattern_rows::is_defined(patterns, number),
    }
}

// An operator that is no call, in its page. Most are plain, and have a shorter way.
fn perform(
    job: &[u8],
    set: Setting,
    attrs: &[usize; 80],
    patterns: &[u16; 4487],
    place: Place,
    o: Operator,
    performed: u32,
) -> Result<Moved, Code>
    ensures { (q : scope.Place) (st : State) (work t : List ℕ) → PlaceHolds (setting_as set) job.now work t patterns.now place q
        → Sized attrs.now o.count → performed ≡ st.performed → may_come (phase_of q) (session_of q).opened o.tag ≡ true
        → eqb o.tag 0x5e ≡ false → Unbroken (case_of (setting_as set) job.now st (session_of q) (operator_as o attrs.now))
        → Judgement (case_of (setting_as set) job.now st (session_of q) (operator_as o attrs.now)) outer result }
{
    let page = place::page_in(place);
    let opened = place::opened_in(place);
    if act::is_plain(o.tag) {
        return arm::moved::keep(page, o.reads, act::needs_cursor(o.tag), opened, performed);
    }
    let act = act::act_of(job, set.high, set.gray, o.tag, o.reads, attrs, o.count);
    arm::moved::perform(page, act, opened, bare_of(patterns, act.select), performed)
}

// A call, from its motif's summary and whether a pattern that is selected there is not defined.
fn call(sum: usize, bare: bool, place: Place, performed: u32) -> Result<Moved, Code>
    ensures { (q : scope.Place) (st : State) (by : setting_of) (job work t p : List ℕ) (o : reading.Operator) → PlaceHolds by job work t p place q
        → performed ≡ st.performed → Earlies t p (case_of by job st (session_of q) o) (Ok (early_is.Call sum bare)) → Judgement (case_of by job st (session_of q) o) outer result }
{
    let page = place::page_in(place);
    let opened = place::opened_in(place);
    arm::moved::call(page, summary::unpacked(sum), opened, bare, performed)
}

// The page after an operator and the number performed, or the code of the first rule broken.
pub fn judge(
    job: &[u8],
    set: Setting,
    attrs: &[usize; 80],
    patterns: &[u16; 4487],
    early: Result<Early, Refusal>,
    place: Place,
    o: Operator,
    performed: u32,
) -> Result<Moved, Code>
    ensures { (q : scope.Place) (st : State) (work t : List ℕ) → PlaceHolds (setting_as set) job.now work t patterns.now place q
        → Sized attrs.now o.count → performed ≡ st.performed → may_come (phase_of q) (session_of q).opened o.tag ≡ true
        → Earlies t patterns.now (case_of (setting_as set) job.now st (session_of q) (operator_as o attrs.now)) early
        → Judgement (case_of (setting_as set) job.now st (session_of q) (operator_as o attrs.now)) (inner_of early) result }
{
    let passed = match early {
        Ok(passed) => passed,
        Err(refusal) => return Err(refusal.code),
    };
    match passed {
        Early::Call(sum, bare) => call(sum, bare, place, performed),
        _ => perform(job, set, attrs, patterns, place, o, performed),
    }
}
