// A job from where it stands, operator by operator.
ghost use Rattle.std.specs.Prelude.{◌≡◌, List, ℕ, ◌*◌, ◌≤◌, length};
ghost use Rattle.setting.specs.Views.{setting_as};
ghost use Rattle.scope.specs.Judge as scope;
ghost use Rattle.scope.specs.Judge.{job_step};
ghost use Rattle.scope.specs.Verdict as verdict;
ghost use Rattle.scope.specs.Verdict.{every};
ghost use Rattle.state.specs.Standing.{lent, Stands, StepsOn, JudgedTo, Goes, Lasts};

use performing::perform;
use reader::Context;
use running::run_on;
use setting::Setting;
use state::{OUTER, State, Verdict, end_code, is_over, stop};
use std::ops::ControlFlow;

// One operator of the job, or its end.
fn advance(
    job: &[u8],
    set: Setting,
    work: &mut [u8],
    list: &mut [u8],
    motifs: &mut [usize; 704],
    patterns: &mut [u16; 4487],
    attrs: &mut [usize; 80],
    st: State,
) -> ControlFlow<Verdict, State>
    requires { (length job.now ≤ 61440) × (16384 ≤ length work.old) × (st.at ≤ length job.now) × (st.records ≤ st.at * 17) }
    ensures lasts { Lasts work.old list.old work.new list.new }
    ensures attrs_len_unchanged { length attrs.new ≡ length attrs.old }
    ensures goes { Goes (length job.now) st.at result }
    ensures steps_on { StepsOn (setting_as set) job.now (lent motifs.old patterns.old work.old list.old) (lent motifs.new patterns.new work.new list.new) st
        (λ list₀ d. length attrs.old ≡ 80)
        result
        (λ room d. job_step every (setting_as set) job.now room d) }
{
    let place = st.place;
    if is_over(job.len(), st) {
        return ControlFlow::Break(stop(st, end_code(place), job.len(), OUTER));
    }
    let context = Context {
        set,
        phase: place::phase_of(place),
        opened: place::opened_in(place),
        asked: true,
    };
    match reader::operator_at(context, job, st.at, attrs) {
        Err(refusal) => ControlFlow::Break(stop(st, refusal.code.number(), refusal.place, OUTER)),
        Ok(None) => ControlFlow::Break(stop(st, end_code(place), job.len(), OUTER)),
        Ok(Some(o)) => perform(job, set, work, list, motifs, patterns, attrs, st, o),
    }
}

// The items of a job from where it stands, while it holds no motif and no pattern is defined: the tables of both are made here.
pub fn with_tables(
    job: &[u8],
    set: Setting,
    work: &mut [u8],
    list: &mut [u8],
    from: State,
) -> Verdict
    requires { (length job.now ≤ 61440) × (16384 ≤ length work.old) × (from.at ≤ length job.now) × (from.records ≤ from.at * 17) }
    ensures lasts { Lasts work.old list.old work.new list.new }
    ensures judged_to { (d : scope.State) (list₀ : List ℕ) → length list₀ ≡ length list.old
        → Stands (setting_as set) job.now list₀ (lent (verdict.zeros 704) (verdict.zeros 4487) work.old list.old) from d
        → JudgedTo (setting_as set) job.now list₀ d result list.new }
{
    let mut motifs = [0usize; 704];
    let mut patterns = [0u16; 4487];
    let mut attrs = [0usize; 80];
    let mut st = from;
    loop {
        let next = run_on(job, set.high, list, st);
        match advance(
            job,
            set,
            work,
            list,
            &mut motifs,
            &mut patterns,
            &mut attrs,
            next,
        ) {
            ControlFlow::Continue(on) => st = on,
            ControlFlow::Break(verdict) => return verdict,
        }
    }
}
