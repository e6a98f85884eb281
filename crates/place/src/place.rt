// Where a job stands between its operators.
ghost use Rattle.std.specs.Prelude.{◌≡◌, List, ℕ};
ghost use Rattle.scope.specs.Setting.{Setting};
ghost use Rattle.scope.specs.Session as scope;
ghost use Rattle.scope.specs.Session.{phase_busy, phase_of, session_of, page_of};
ghost use Rattle.order.specs.Views.{phase_as};
ghost use Rattle.page.specs.Holds.{PageHolds};
ghost use Rattle.place.specs.Places.{PlaceHolds};
ghost use Rattle.place.specs.declared.place.Busy.TheVariants.{Drawing};

use motif::Kept;
use order::{Phase, Picture};
use page::page::Page;

// In a session: at rest, reading a motif (place and length of its name in the job, bytes joined so far), or in a page, perhaps with an image or a pattern open.
#[derive(Clone, Copy)]
pub enum Busy {
    Resting,
    Reading(usize, usize, usize),
    Drawing(Page, Picture),
}

// Outside a session, after one or before the first; or inside one: source open or not, what it keeps of its motifs, what it is at.
#[derive(Clone, Copy)]
pub enum Place {
    Outside(bool),
    Inside(bool, Kept, Busy),
}

// The phase that reading has to know.
#[tactic(auto, using(crate::proofs::Standing::page_place), unfolding(scope::specs::Session::phase_of, scope::specs::Session::phase_busy, scope::specs::Session::phase_drawing))]
pub fn phase_of(place: Place) -> Phase
    ensures { (q : scope.Place) (set : Setting) (job work t p : List ℕ) → PlaceHolds set job work t p place q → phase_as result ≡ phase_of q }
{
    match place {
        Place::Outside(_) => Phase::BetweenSessions,
        Place::Inside(_, _, Busy::Resting) => Phase::InSession,
        Place::Inside(_, _, Busy::Reading(_, _, _)) => Phase::InStream,
        Place::Inside(_, _, Busy::Drawing(page, Picture::Nothing)) => {
            Phase::InPage(page.depth as usize)
        }
        Place::Inside(_, _, Busy::Drawing(_, Picture::Being(image))) => Phase::InImage(image),
        Place::Inside(_, _, Busy::Drawing(_, Picture::Hatching(image, _))) => {
            Phase::InPattern(image)
        }
    }
}

// The data source is open.
pub fn opened_in(place: Place) -> bool
    ensures { (q : scope.Place) (set : Setting) (job work t p : List ℕ) → PlaceHolds set job work t p place q → result ≡ (session_of q).opened }
{
    match place {
        Place::Outside(_) => false,
        Place::Inside(opened, _, _) => opened,
    }
}

// The page that is being drawn; outside a page one on which nothing was done.
pub fn page_in(place: Place) -> Page
    ensures { (q : scope.Place) (set : Setting) (job work t p : List ℕ) → PlaceHolds set job work t p place q → PageHolds result (page_of (session_of q).busy) }
{
    match place {
        Place::Inside(_, _, Busy::Drawing(page, _)) => page,
        Place::Outside(_) | Place::Inside(_, _, Busy::Resting | Busy::Reading(_, _, _)) => {
            page::page::blank(false)
        }
    }
}
