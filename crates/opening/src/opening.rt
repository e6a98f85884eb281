// BeginSession, EndSession, OpenDataSource and CloseDataSource, where no page is open and no motif is read: a run of them is judged in one small loop, which needs
// no tables of motifs and patterns, as far as nothing could refuse them.
ghost use Rattle.std.specs.Prelude.{◌≡◌, true, List, ℕ, ◌<◌, length, Ok};
ghost use Rattle.items.specs.Rows.{Sized};
ghost use Rattle.scope.specs.Setting.{Setting as setting_of};
ghost use Rattle.setting.specs.Views.{setting_as};
ghost use Rattle.reader.specs.Reads.{operator_as, Within};
ghost use Rattle.place.specs.declared.place.Busy.TheVariants.{Resting};
ghost use Rattle.place.specs.declared.place.Place.TheVariants.{Inside};
ghost use Rattle.opening.specs.Opening.{Edge, Rests, Past, Reads, Opens};

use motif::Kept;
use names::limits::PERFORMED_MOST;
use names::operators::{BEGIN_SESSION, CLOSE_DATA_SOURCE, END_SESSION, OPEN_DATA_SOURCE};
use place::{Busy, Place};
use reader::{Context, Operator};
use setting::Setting;
use state::State;

// The tag of an operator that begins or ends a session, or opens or closes its source.
#[tactic(auto, using(crate::specs::Opening::begins, crate::specs::Opening::ends, crate::specs::Opening::opens, crate::specs::Opening::closes))]
fn is_edge(tag: u8) -> bool
    ensures { result ≡ true → Edge tag }
{
    matches!(
        tag,
        BEGIN_SESSION | END_SESSION | OPEN_DATA_SOURCE | CLOSE_DATA_SOURCE
    )
}

// Outside a session, or in one with no page open and no motif being read.
#[tactic(auto, using(crate::specs::Opening::rests_outside, crate::specs::Opening::rests_inside))]
fn at_rest(place: Place) -> bool
    ensures { result ≡ true → Rests place }
{
    matches!(
        place,
        Place::Outside(_) | Place::Inside(_, _, Busy::Resting)
    )
}

// In a session at rest: EndSession drops all, OpenDataSource opens the source, CloseDataSource closes it.
fn past_in(tag: u8, opened: bool, kept: Kept) -> Place
    ensures { Edge tag → Past (Inside opened kept Resting) tag result }
{
    match tag {
        END_SESSION => Place::Outside(true),
        OPEN_DATA_SOURCE => Place::Inside(true, kept, Busy::Resting),
        CLOSE_DATA_SOURCE => Place::Inside(false, kept, Busy::Resting),
        _ => Place::Inside(opened, kept, Busy::Resting),
    }
}

// The place after such an operator, at rest: outside a session one begins, without motifs.
fn place_past(tag: u8, place: Place) -> Place
    ensures { Edge tag → Rests place → Past place tag result }
{
    match place {
        Place::Outside(_) => Place::Inside(false, Kept { held: 0, used: 0 }, Busy::Resting),
        Place::Inside(opened, kept, _) => past_in(tag, opened, kept),
    }
}

// Past an operator that was read at rest, if it is one of the four, takes no data and its records have room.
fn pass(list: &mut [u8], attrs: &[usize; 80], st: State, o: Operator) -> State
    requires { st.performed < 1_000_000 }
    ensures { (job : List ℕ) (set : setting_of) → Rests st.place → Sized attrs.now o.count → Within (length job) st.at (Ok (Some o))
        → Reads job set st (operator_as o attrs.now) → Opens job set list.old list.new st result }
{
    if o.reads || !is_edge(o.tag) {
        return st;
    }
    if !listed::list_operator(
        list, st.records, attrs, o.count, o.tag, o.at, o.length, o.first,
    ) {
        return st;
    }
    State {
        at: o.next,
        place: place_past(o.tag, st.place),
        performed: st.performed + 1,
        records: st.records + o.count + 1,
    }
}

// Past the next operator, if it is one of the four and nothing could refuse it.
fn open_one(job: &[u8], set: Setting, list: &mut [u8], attrs: &mut [usize; 80], st: State) -> State
    ensures attrs_len_unchanged { length attrs.new ≡ length attrs.old }
    ensures opens { length attrs.old ≡ 80 → Opens job.now (setting_as set) list.old list.new st result }
{
    let place = st.place;
    if PERFORMED_MOST <= st.performed || !at_rest(place) {
        return st;
    }
    let context = Context {
        set,
        phase: place::phase_of(place),
        opened: place::opened_in(place),
        asked: true,
    };
    match reader::operator_at(context, job, st.at, attrs) {
        Ok(Some(o)) => pass(list, attrs, st, o),
        _ => st,
    }
}

// Past the operators that open the job, if any stand next.
pub fn open_on(job: &[u8], set: Setting, list: &mut [u8], st: State) -> State
    ensures { Opens job.now (setting_as set) list.old list.new st result }
{
    let mut attrs = [0usize; 80];
    let mut here = st;
    loop {
        let next = open_one(job, set, list, &mut attrs, here);
        if next.at <= here.at {
            return next;
        }
        here = next;
    }
}
