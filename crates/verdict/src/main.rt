// Judges the job on standard input, whose pages start in gray, and prints code, position, inner, records and performed.
#![tactic(auto)]

use std::io;

// The five numbers on one line.
fn print<P: Print>(out: &P, v: state::Verdict) -> io::Result<()> {
    answers::five(out, v.code, v.position, v.inner, v.records, v.performed)
}

// One byte more than a job may have is room enough to tell a job that is too long.
fn main(rt: HostRuntime) -> io::Result<()> {
    let mut input = rt.stdin();
    let mut job = rooms::job();
    let n = answers::read_full(&mut input, &mut job)?;
    let mut work = rooms::work();
    let mut list = [0u8; 65_536];
    print(&rt, checker::check(&job[..n], &mut work, &mut list, true))
}
