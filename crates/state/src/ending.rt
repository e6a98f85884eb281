// Where a job ends, with which code, and the verdict where the judging stands.
ghost use Rattle.std.specs.Prelude.{◌≡◌, true, List, ℕ, ◌≤◌, ◌<◌};
ghost use Rattle.scope.specs.Setting.{Setting as setting_of};
ghost use Rattle.scope.specs.Session as session;
ghost use Rattle.scope.specs.Judge as scope;
ghost use Rattle.scope.specs.Verdict as verdict;
ghost use Rattle.place.specs.Places.{PlaceHolds};
ghost use Rattle.state.specs.Views.{verdict_as};
ghost use Rattle.state.specs.Standing.{end_code};

use crate::state::State;
use crate::verdict::{Verdict, told};
use place::Place;

// A refusal, or the pass, where the judging stands.
pub fn stop(st: State, code: u32, position: usize, inner: u32) -> Verdict
    ensures { (d : scope.State) → position < 4_294_967_296 → st.records < 4_294_967_296 → st.records ≡ d.records → st.performed ≡ d.performed
        → verdict_as result ≡ verdict.told (scope.refused_at code position inner d) }
{
    told(code, position, inner, st.records, st.performed)
}

// The code at the end of the job: pass between sessions, after one at least; else 27.
pub fn end_code(place: Place) -> u32
    ensures { (q : session.Place) (by : setting_of) (job work t p : List ℕ) → PlaceHolds by job work t p place q → result ≡ end_code q }
{
    match place {
        Place::Outside(true) => 0,
        Place::Outside(false) | Place::Inside(_, _, _) => 27,
    }
}

// The job is read to its end.
pub fn is_over(len: usize, st: State) -> bool
    ensures { result ≡ true → len ≤ st.at }
{
    len <= st.at
}
