// The one public entry, and the same as C calls it.
ghost use Rattle.std.specs.Prelude.{◌≡◌, ◌≤◌, length, eqb};
ghost use Rattle.scope.specs.Verdict.{every, judged_after};
ghost use Rattle.scope.specs.Verdict as verdict;
ghost use Rattle.scope.specs.Header.{header_of};
ghost use Rattle.state.specs.Views.{verdict_as};
ghost use Rattle.checker.specs.Claims.{Promised, answer};
ghost use Rattle.state.specs.Standing.{Lasts, Listed};

use header::Header;
use names::limits::{JOB_MOST, WORK_LEAST};
use setting::Setting;
use state::{OUTER, Verdict, told};
use stepping::judge_items;

// A job that is not too long, with a work buffer that is long enough: its header, then its items.
fn judge_job(job: &[u8], gray: bool, work: &mut [u8], list: &mut [u8]) -> Verdict
    requires { (length job.now ≤ 61440) × (16384 ≤ length work.old) }
    ensures lasts { Lasts work.old list.old work.new list.new }
    ensures result_value { (verdict_as result ≡ verdict.told (judged_after gray every job.now (length list.old) (header_of job.now)))
        × Listed list.old (judged_after gray every job.now (length list.old) (header_of job.now)).state.past list.new }
{
    match header::header_of(job) {
        Err(refusal) => told(refusal.code.number(), refusal.place, OUTER, 0, 0),
        Ok(Header { class, high, next }) => {
            let set = Setting { class, high, gray };
            judge_items(job, set, next, work, list)
        }
    }
}

// Judges a job whose pages start in gray, or else in RGB. The list gets its records, the first 16,384 bytes of the work buffer are zero afterwards.
pub fn check(job: &[u8], work: &mut [u8], list: &mut [u8], gray: bool) -> Verdict
    ensures { Promised gray job.now work.old list.old (answer result work.new list.new) }
{
    if work.len() < WORK_LEAST {
        return told(29, 0, OUTER, 0, 0);
    }
    if JOB_MOST < job.len() {
        return told(1, JOB_MOST, OUTER, 0, 0);
    }
    let verdict = judge_job(job, gray, work, list);
    buffer::zero(work);
    verdict
}

// The same for C and Rust, as crate checker_c exports it: pages start in gray where `rgb` is 0, in RGB with any other number.
pub fn dieuvakhop_check(job: &[u8], work: &mut [u8], list: &mut [u8], rgb: u32) -> Verdict
    ensures { Promised (eqb rgb 0) job.now work.old list.old (answer result work.new list.new) }
{
    check(job, work, list, rgb == 0)
}
