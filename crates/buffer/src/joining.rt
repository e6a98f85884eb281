// A motif is the joined data of its blocks: each is copied to where the bytes already held end.
ghost use Rattle.std.specs.Prelude.{◌≡◌, ◌+◌, ◌≤◌, ◌++◌, leb, length, drop};
ghost use Rattle.buffer.specs.Over.{joined_at};

// A block of any length at the start of dst, byte by byte: by std's copy of a slice the library would ask the C library for `memmove` too.
fn front(block: &[u8], dst: &mut [u8])
    requires { length block.now ≤ length dst.old }
    ensures { dst.new ≡ block.now ++ drop (length block.now) dst.old }
{
    for i in 0..block.len() {
        dst[i] = block[i];
    }
}

// Joins block to the bytes already held, and answers true; without room for it work stays as it is, and the answer is false.
pub fn join(block: &[u8], work: &mut [u8], held: usize) -> bool
    ensures value { result ≡ leb (held + length block.now) (length work.old) }
    ensures work_after { work.new ≡ joined_at result work.old held block.now }
{
    if work.len() < block.len() || work.len() - block.len() < held {
        return false;
    }
    front(block, &mut work[held..]);
    true
}
