// An operator that was read is judged; where no rule is broken it is listed and performed.
ghost use Rattle.std.specs.Prelude.{◌≡◌, ◌+◌, ◌*◌, ◌≤◌, ◌<◌, length};
ghost use Rattle.items.specs.Rows.{Sized};
ghost use Rattle.setting.specs.Views.{setting_as};
ghost use Rattle.scope.specs.Reading.{operator_at, operator};
ghost use Rattle.scope.specs.Judge.{context_of, on_read};
ghost use Rattle.scope.specs.Verdict.{every};
ghost use Rattle.reader.specs.Reads.{operator_as};
ghost use Rattle.state.specs.Standing.{lent, StepsOn, Comes, Goes, Lasts};

use after::Passed;
use reader::Operator;
use ruling::{inner_of, judge};
use setting::Setting;
use state::{OUTER, State, Verdict, stop};
use std::ops::ControlFlow;

// An operator that the rules let pass: it, what they leave of it, and how many are performed then.
#[derive(Clone, Copy)]
struct Allowed {
    o: Operator,
    passed: Passed,
    performed: u32,
}

// An operator that breaks no rule but perhaps that of the room: its records, and where the job stands after it.
fn go_on(
    job: &[u8],
    set: Setting,
    work: &mut [u8],
    list: &mut [u8],
    motifs: &mut [usize; 704],
    patterns: &mut [u16; 4487],
    attrs: &[usize; 80],
    st: State,
    allowed: Allowed,
) -> ControlFlow<Verdict, State>
    requires { (length job.now ≤ 61440) × (16384 ≤ length work.old) × (st.at ≤ allowed.o.at) × (allowed.o.at < allowed.o.next) × (allowed.o.next ≤ length job.now)
        × (allowed.o.count ≤ 16) × (st.records ≤ st.at * 17) }
    ensures lasts { Lasts work.old list.old work.new list.new }
    ensures goes { Goes (length job.now) st.at result }
    ensures steps_on { StepsOn (setting_as set) job.now (lent motifs.old patterns.old work.old list.old) (lent motifs.new patterns.new work.new list.new) st
        (λ list₀ d. Sized attrs.now allowed.o.count
        × (allowed.o.first + allowed.o.length ≤ length job.now)
        × Comes motifs.old patterns.old job.now list₀ (setting_as set) d (operator_as allowed.o attrs.now) allowed.passed.early
        allowed.passed.page allowed.performed)
        result
        (λ room d. on_read every (setting_as set) job.now room d (operator (operator_as allowed.o attrs.now))) }
{
    let place = st.place;
    let o = allowed.o;
    let passed = allowed.passed;
    if !listed::list_operator(
        list, st.records, attrs, o.count, o.tag, o.at, o.length, o.first,
    ) {
        return ControlFlow::Break(stop(st, 28, o.at, OUTER));
    }
    let next = after::place_after(job, set, o, attrs, passed, place, work, motifs, patterns);
    ControlFlow::Continue(State {
        at: o.next,
        place: next,
        performed: allowed.performed,
        records: st.records + o.count + 1,
    })
}

// An operator that was read.
pub fn perform(
    job: &[u8],
    set: Setting,
    work: &mut [u8],
    list: &mut [u8],
    motifs: &mut [usize; 704],
    patterns: &mut [u16; 4487],
    attrs: &[usize; 80],
    st: State,
    o: Operator,
) -> ControlFlow<Verdict, State>
    requires { (length job.now ≤ 61440) × (16384 ≤ length work.old) × (st.at ≤ o.at) × (o.at < o.next) × (o.next ≤ length job.now) × (o.count ≤ 16) × (st.records ≤ st.at * 17) }
    ensures lasts { Lasts work.old list.old work.new list.new }
    ensures goes { Goes (length job.now) st.at result }
    ensures steps_on { StepsOn (setting_as set) job.now (lent motifs.old patterns.old work.old list.old) (lent motifs.new patterns.new work.new list.new) st
        (λ list₀ d. Sized attrs.now o.count × (o.first + o.length ≤ length job.now)
        × (operator_at (context_of every (setting_as set) d.place) job.now d.at ≡ operator (operator_as o attrs.now)))
        result
        (λ room d. on_read every (setting_as set) job.now room d (operator (operator_as o attrs.now))) }
{
    let place = st.place;
    let early = match early::early_of(job, set, work, motifs, patterns, attrs, place, o) {
        Ok(early) => early,
        Err(refusal) => {
            return ControlFlow::Break(stop(
                st,
                refusal.code.number(),
                o.at,
                inner_of(Err(refusal)),
            ));
        }
    };
    match judge(job, set, attrs, patterns, Ok(early), place, o, st.performed) {
        Err(code) => ControlFlow::Break(stop(st, code.number(), o.at, OUTER)),
        Ok(moved) => go_on(
            job,
            set,
            work,
            list,
            motifs,
            patterns,
            attrs,
            st,
            Allowed {
                o,
                passed: Passed {
                    early,
                    page: moved.page,
                },
                performed: moved.performed,
            },
        ),
    }
}
