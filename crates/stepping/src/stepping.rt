// A job, operator by operator.
ghost use Rattle.std.specs.Prelude.{◌≤◌, length};
ghost use Rattle.setting.specs.Views.{setting_as};
ghost use Rattle.scope.specs.Judge as scope;
ghost use Rattle.state.specs.Standing.{JudgedTo, Lasts};

use advancing::with_tables;
use names::limits::{JOB_MOST, WORK_LEAST};
use opening::open_on;
use place::Place;
use setting::Setting;
use state::{OUTER, State, Verdict, end_code, is_over, stop, told};

// The items of a job that is not too long, with a work buffer that is long enough, from the first one on: what opens it needs no tables.
fn items_from(job: &[u8], set: Setting, next: usize, work: &mut [u8], list: &mut [u8]) -> Verdict
    requires { (length job.now ≤ 61440) × (16384 ≤ length work.old) × (next ≤ length job.now) }
    ensures lasts { Lasts work.old list.old work.new list.new }
    ensures judged_to { JudgedTo (setting_as set) job.now list.old (scope.starting next) result list.new }
{
    let st = open_on(
        job,
        set,
        list,
        State {
            at: next,
            place: Place::Outside(false),
            performed: 0,
            records: 0,
        },
    );
    let place = st.place;
    if is_over(job.len(), st) {
        return stop(st, end_code(place), job.len(), OUTER);
    }
    with_tables(job, set, work, list, st)
}

// The whole of a job's items, from the first one on. Where the job is too long, the work buffer too short or `next` outside the job, nothing is read.
pub fn judge_items(
    job: &[u8],
    set: Setting,
    next: usize,
    work: &mut [u8],
    list: &mut [u8],
) -> Verdict
    ensures lasts { Lasts work.old list.old work.new list.new }
    ensures judged_to { length job.now ≤ 61440 → 16384 ≤ length work.old → next ≤ length job.now
        → JudgedTo (setting_as set) job.now list.old (scope.starting next) result list.new }
{
    if JOB_MOST < job.len() {
        return told(1, JOB_MOST, OUTER, 0, 0);
    }
    if work.len() < WORK_LEAST {
        return told(29, 0, OUTER, 0, 0);
    }
    if job.len() < next {
        return told(2, job.len(), OUTER, 0, 0);
    }
    items_from(job, set, next, work, list)
}
