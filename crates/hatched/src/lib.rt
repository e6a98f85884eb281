// Whether a pattern is defined at a place of a job, and if not, with what it ended.
#![tactic(auto)]

use names::attributes::{PATTERN_DEFINE_ID, PATTERN_PERSISTENCE};
use names::operators::{BEGIN_RAST_PATTERN, END_PAGE, END_RAST_PATTERN, END_SESSION};
use trail::Walk;

// It is defined, for the page or for the session; it was, for the page before, for an earlier page, or in an earlier session; or it never was.
#[derive(Clone, Copy, PartialEq, Eq)]
pub enum Until {
    Now,
    PageBefore,
    EarlierPage,
    EarlierSession,
    Never,
}

// For what a pattern is defined.
#[derive(Clone, Copy)]
enum Persistence {
    Page,
    Session,
}

// How matters stand with the pattern: whether it is defined for the page, and for the session; for what it is being defined, if it is; and what
// became of it before.
#[derive(Clone, Copy)]
struct Pattern {
    on_page: bool,
    in_session: bool,
    begun: Option<Persistence>,
    past: Until,
}

// BeginRastPattern.
fn begun(walk: &Walk, number: u32) -> Option<Persistence> {
    if walk.value(PATTERN_DEFINE_ID) != number {
        return None;
    }
    match walk.value(PATTERN_PERSISTENCE) {
        1 => Some(Persistence::Page),
        2 => Some(Persistence::Session),
        _ => None,
    }
}

impl Pattern {
    // EndRastPattern.
    fn define(&mut self) {
        match self.begun {
            Some(Persistence::Page) => self.on_page = true,
            Some(Persistence::Session) => self.in_session = true,
            None => {}
        }
    }

    // EndPage.
    fn end_page(&mut self) {
        if self.on_page {
            self.past = Until::PageBefore;
        } else if self.past == Until::PageBefore {
            self.past = Until::EarlierPage;
        }
        self.on_page = false;
    }

    // EndSession.
    fn end_session(&mut self) {
        if self.in_session || self.past != Until::Never {
            self.past = Until::EarlierSession;
        }
        self.in_session = false;
    }

    // What the operator that a walk has come to changes.
    fn note(&mut self, walk: &Walk, number: u32) {
        match walk.tag {
            Some(END_SESSION) => self.end_session(),
            Some(END_PAGE) => self.end_page(),
            Some(BEGIN_RAST_PATTERN) => self.begun = begun(walk, number),
            Some(END_RAST_PATTERN) => self.define(),
            _ => {}
        }
    }

    // Till when it is defined.
    fn until(&self) -> Until {
        if self.on_page || self.in_session {
            Until::Now
        } else {
            self.past
        }
    }
}

// How matters stand with the pattern of a number before the operator at a place of the job.
pub fn hatched(job: &[u8], to: usize, number: u32) -> Until {
    let mut walk = Walk::of_job(job);
    let mut pattern = Pattern {
        on_page: false,
        in_session: false,
        begun: None,
        past: Until::Never,
    };
    for _ in 0..job.len() {
        if !walk.pass(to) {
            break;
        }
        pattern.note(&walk, number);
    }
    pattern.until()
}

// The pattern of a number is defined before the operator at a place of the job.
pub fn is_hatched(job: &[u8], to: usize, number: u32) -> bool {
    hatched(job, to, number) == Until::Now
}
