// The library of include/dieuvakhop.h: what C and Rust call, over the checker.
#![tactic(auto)]

ghost use Rattle.std.specs.Prelude.{eqb};
ghost use Rattle.checker.specs.Claims.{Promised, answer};

use state::Verdict;

// Judges a job: pages start in gray where `rgb` is 0, in RGB with any other number.
#[unsafe(no_mangle)]
pub extern "C" fn dieuvakhop_check(
    job: &[u8],
    work: &mut [u8],
    list: &mut [u8],
    rgb: u32,
) -> Verdict
    ensures { Promised (eqb rgb 0) job.now work.old list.old (answer result work.new list.new) }
{
    checker::dieuvakhop_check(job, work, list, rgb)
}
