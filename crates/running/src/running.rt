// Operators that are their tag alone, and lines by their end point, in a page with no image and no pattern open: a run of them is judged in one small loop,
// as far as nothing could refuse them. White space may stand between them, and is passed with the operator behind it.
ghost use Rattle.std.specs.Prelude.{◌≡◌, Bool, ◌<◌, length, IfSome, unwrap_or};
ghost use Rattle.scope.specs.Item.{after};
ghost use Rattle.order.specs.declared.picture.Picture.TheVariants.{Nothing};
ghost use Rattle.place.specs.declared.place.Busy.TheVariants.{Drawing};
ghost use Rattle.place.specs.declared.place.Place.TheVariants.{Inside};
ghost use Rattle.running.specs.Running.{in_session, Further, Runs};

use end_point::line_to;
use motif::Kept;
use names::attributes::END_POINT;
use names::limits::PERFORMED_MOST;
use order::Picture;
use page::page::Page;
use place::{Busy, Place};
use state::State;
use white::is_white;

// Where a run stands.
#[derive(Clone, Copy)]
pub struct Run {
    pub at: usize,
    pub page: Page,
    pub performed: u32,
    pub records: usize,
}

// The first place from `at` on that is not white; none where more than 16 bytes are white: those are left to the scan of items, which passes them faster.
fn near_item(job: &[u8], at: usize) -> Option<usize>
    requires { at < length job.now }
    ensures { IfSome result (λ p. (p ≡ after job.now at) × (p < length job.now)) }
{
    for p in at..job.len().min(at + 17) {
        if !is_white(job[p]) {
            return Some(p);
        }
    }
    None
}

// Where the next item stands: most often right here, as a byte from 0x41 on is not white, else behind white space.
fn item_at(job: &[u8], at: usize) -> Option<usize>
    requires { at < length job.now }
    ensures { IfSome result (λ p. (p ≡ after job.now at) × (p < length job.now)) }
{
    if 0x41 <= job[at] {
        return Some(at);
    }
    near_item(job, at)
}

// The next operator of a run, where it is its tag alone and stands at `at`.
fn pass_alone(job: &[u8], list: &mut [u8], from: Run, at: usize) -> Option<Run>
    requires { (at ≡ after job.now from.at) × (at < length job.now) × (from.performed < 1_000_000) }
    ensures further { Further (length job.now) from result }
    ensures runs { (high opened : Bool) (kept : Kept)
        → Runs job.now high list.old list.new (in_session opened kept from) (in_session opened kept (unwrap_or result from)) }
{
    let tag = job[at];
    let performed = from.performed + 1;
    let Some(page) = from.page.past(tag) else {
        return None;
    };
    if !listed::list_alone(list, from.records, tag, at) {
        return None;
    }
    Some(Run {
        at: at + 1,
        page,
        performed,
        records: from.records + 1,
    })
}

// The next operator of a run, where it is a line by its end point, from `at` on, and the cursor is set.
fn pass_line(job: &[u8], high: bool, list: &mut [u8], from: Run, at: usize) -> Option<Run>
    requires { (at ≡ after job.now from.at) × (at < length job.now) × (from.performed < 1_000_000) }
    ensures further { Further (length job.now) from result }
    ensures runs { (opened : Bool) (kept : Kept)
        → Runs job.now high list.old list.new (in_session opened kept from) (in_session opened kept (unwrap_or result from)) }
{
    if !from.page.cursor {
        return None;
    }
    let op = line_to(job, high, at)?;
    if !listed::list_one(
        list,
        from.records,
        END_POINT,
        job[at],
        at,
        2,
        at + 1,
        job[op],
        op,
    ) {
        return None;
    }
    Some(Run {
        at: op + 1,
        page: from.page,
        performed: from.performed + 1,
        records: from.records + 2,
    })
}

// The next operator of a run, behind white space if there is any; or the run ends. From 0xd0 on a tag may be that of a point, below it that of an operator.
fn pass_one(job: &[u8], high: bool, list: &mut [u8], from: Run) -> Option<Run>
    ensures further { Further (length job.now) from result }
    ensures runs { (opened : Bool) (kept : Kept)
        → Runs job.now high list.old list.new (in_session opened kept from) (in_session opened kept (unwrap_or result from)) }
{
    if job.len() <= from.at || PERFORMED_MOST <= from.performed {
        return None;
    }
    let at = item_at(job, from.at)?;
    if job[at] < 0xd0 {
        pass_alone(job, list, from, at)
    } else {
        pass_line(job, high, list, from, at)
    }
}

// The whole of a run. It is compiled apart from its callers, so that what each turn needs stays in registers.
#[inline(never)]
fn run_from(job: &[u8], high: bool, list: &mut [u8], from: Run) -> Run
    ensures { (opened : Bool) (kept : Kept)
        → Runs job.now high list.old list.new (in_session opened kept from) (in_session opened kept result) }
{
    let mut run = from;
    while let Some(on) = pass_one(job, high, list, run) {
        run = on;
    }
    run
}

// In a page with no image and no pattern open: past the run that stands next.
fn past_run(
    job: &[u8],
    high: bool,
    list: &mut [u8],
    st: State,
    opened: bool,
    kept: Kept,
    page: Page,
) -> State
    ensures { st.place ≡ Inside opened kept (Drawing page Nothing) → Runs job.now high list.old list.new st result }
{
    let run = run_from(
        job,
        high,
        list,
        Run {
            at: st.at,
            page,
            performed: st.performed,
            records: st.records,
        },
    );
    let page = run.page;
    State {
        at: run.at,
        place: Place::Inside(opened, kept, Busy::Drawing(page, Picture::Nothing)),
        performed: run.performed,
        records: run.records,
    }
}

// A run may start here: this is not the tag of one number or of an array, with which none starts.
fn may_start(job: &[u8], p: usize) -> bool {
    p < job.len() && !matches!(job[p], 0xc0..=0xcf)
}

// Past the run of operators that are their tag alone and of lines by their end point, if one stands next.
pub fn run_on(job: &[u8], high: bool, list: &mut [u8], st: State) -> State
    ensures { Runs job.now high list.old list.new st result }
{
    if !may_start(job, st.at) {
        return st;
    }
    match st.place {
        Place::Inside(opened, kept, Busy::Drawing(page, Picture::Nothing)) => {
            past_run(job, high, list, st, opened, kept, page)
        }
        _ => st,
    }
}
