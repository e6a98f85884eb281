// A job on standard input, or among many there.
ghost use Rattle.std.specs.Prelude.{◌≤◌, length, IfOk};

use std::io;
use std::io::{ErrorKind, Read};

// Reads till the room is full or the input ends; the answer is how many bytes came.
// The turns are counted, since nothing that falls bounds how often a read is interrupted.
pub fn read_full<R: Read>(input: &mut R, room: &mut [u8]) -> io::Result<usize>
    ensures { IfOk result (λ n. n ≤ length room.new) }
{
    let mut done: usize = 0;
    for _ in 0..u64::MAX {
        if room.len() <= done {
            return Ok(done);
        }
        match input.read(&mut room[done..]) {
            Ok(0) => return Ok(done),
            Ok(n) => done += n,
            Err(e) if e.kind() == ErrorKind::Interrupted => {}
            Err(e) => return Err(e),
        }
    }
    Ok(done)
}

// Reads n bytes to the start of job, and whether they came.
pub fn fill<R: Read>(input: &mut R, job: &mut [u8], n: usize) -> io::Result<bool> {
    if job.len() < n {
        return Ok(false);
    }
    Ok(read_full(input, &mut job[0..n])? == n)
}

// A number of four bytes.
pub fn number(a: u8, b: u8, c: u8, d: u8) -> usize {
    u32::from_le_bytes([a, b, c, d]) as usize
}
