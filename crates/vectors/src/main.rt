// Judges many jobs and prints a line for each: the five numbers, then a checksum of the work buffer and one of the list.
//
// A job is the lengths of the job, of the work buffer and of the list and the start asked for (0 gray, else RGB), four bytes each with the low byte first, then the
// job.
#![tactic(auto)]

use answers::{checksum, fill, number, read_full, seven};
use std::io;
use std::io::Read;

// Judges the first n bytes of the job with as many bytes of the buffers as asked for; code 99 if there are not so many.
fn judge(
    job: &[u8],
    n: usize,
    work: &mut [u8],
    held: usize,
    list: &mut [u8],
    room: usize,
    gray: bool,
) -> state::Verdict {
    if job.len() < n || work.len() < held || list.len() < room {
        return state::Verdict {
            code: 99,
            position: 0,
            inner: 0,
            records: 0,
            performed: 0,
        };
    }
    checker::check(&job[0..n], &mut work[0..held], &mut list[0..room], gray)
}

// The line of an answer, with the checksums of both buffers.
fn print<P: Print>(out: &P, v: state::Verdict, work: u64, list: u64) -> io::Result<()> {
    seven(
        out,
        v.code,
        v.position,
        v.inner,
        v.records,
        v.performed,
        work,
        list,
    )
}

// Both buffers are full of a byte that no record and no zeroed work buffer has throughout.
fn answer<P: Print>(
    out: &P,
    job: &[u8],
    n: usize,
    held: usize,
    room: usize,
    gray: bool,
) -> io::Result<()> {
    let mut work = rooms::filled();
    let mut list = rooms::filled();
    let verdict = judge(job, n, &mut work, held, &mut list, room, gray);
    print(out, verdict, checksum(&work), checksum(&list))
}

// One job, and whether there was one.
fn next<R: Read, P: Print, E: Print>(input: &mut R, out: &P, errors: &E) -> io::Result<bool> {
    let mut head = [0u8; 16];
    if read_full(input, &mut head)? < 16 {
        return Ok(false);
    }
    let n = number(head[0], head[1], head[2], head[3]);
    let held = number(head[4], head[5], head[6], head[7]);
    let room = number(head[8], head[9], head[10], head[11]);
    let rgb = number(head[12], head[13], head[14], head[15]);
    let mut job = rooms::long_job();
    if !fill(input, &mut job, n)? {
        errors.write_all(b"the job is cut\n")?;
        return Ok(false);
    }
    answer(out, &job, n, held, room, rgb == 0)?;
    Ok(true)
}

// A loop must be seen to end, so it counts its turns up to a number that no run uses up.
fn main(rt: HostRuntime) -> io::Result<()> {
    let mut input = rt.stdin();
    let errors = rt.stderr();
    for _ in 0..u64::MAX {
        if !next(&mut input, &rt, &errors)? {
            break;
        }
    }
    Ok(())
}
