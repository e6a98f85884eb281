// The work buffer holds nothing of a job once it is judged.
ghost use Rattle.std.specs.Prelude.{◌≡◌};
ghost use Rattle.buffer.specs.Over.{cleared};

use names::limits::WORK_LEAST;

// The first 16,384 bytes of work become zero; a shorter buffer stays as it is.
pub fn zero(work: &mut [u8])
    ensures { work.new ≡ cleared work.old }
{
    if WORK_LEAST <= work.len() {
        work[..WORK_LEAST].fill(0);
    }
}
