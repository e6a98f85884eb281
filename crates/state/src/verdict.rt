// The verdict on a job.
ghost use Rattle.std.specs.Prelude.{◌≡◌, ◌<◌};
ghost use Rattle.state.specs.Views.{verdict_as, verdict_from};

// Inner, unless said otherwise.
pub const OUTER: u32 = 4_294_967_295;

// A code, a position, an inner position, the number of records, and the number of operators performed before it ended.
#[repr(C)]
#[derive(Clone, Copy)]
pub struct Verdict {
    pub code: u32,
    pub position: u32,
    pub inner: u32,
    pub records: u32,
    pub performed: u32,
}

// A verdict of numbers that fit.
pub fn told(code: u32, position: usize, inner: u32, records: usize, performed: u32) -> Verdict
    ensures { position < 4_294_967_296 → records < 4_294_967_296 → verdict_as result ≡ verdict_from code position inner records performed }
{
    Verdict {
        code,
        position: (position % 4_294_967_296) as u32,
        inner,
        records: (records % 4_294_967_296) as u32,
        performed,
    }
}
