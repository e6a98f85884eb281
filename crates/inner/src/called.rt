// A call that is refused for what it comes to.
use breach::{of_bare, of_breach, of_lacking, of_ring};
use descent::{before_call, breach_in};
use down::called;
use fault::of_job;
use refusal::Code;
use rings::ring_from;
use std::io;

// Says what is wrong in the call at a place of the job, where pages start in gray or else in RGB, and the cure; the store is room for the motifs.
pub fn of_call<P: Print>(
    out: &P,
    job: &[u8],
    list: &[u8],
    records: usize,
    code: Code,
    at: usize,
    gray: bool,
    store: &mut [u8],
) -> io::Result<()> {
    let before = before_call(job, at, gray, store);
    let motifs = before.keeping.motifs(store);
    let Some(called) = called(&before.walk, motifs) else {
        return of_job(out, job, list, records, code, at);
    };
    if code == Code::Ring {
        return match ring_from(motifs.table, motifs.many, called) {
            Some(ring) => of_ring(out, &before.walk, motifs, called, &ring),
            None => of_job(out, job, list, records, code, at),
        };
    }
    let Some(breach) = breach_in(job, code.number(), at, gray, motifs, before.page, called) else {
        return of_job(out, job, list, records, code, at);
    };
    match code {
        Code::NotHeld => of_lacking(out, job, list, records, motifs, called, &breach),
        Code::NoPattern => of_bare(out, job, at, motifs, called, &breach),
        _ => of_breach(out, motifs, called, &breach, code),
    }
}
