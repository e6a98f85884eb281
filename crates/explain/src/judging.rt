// The line of a job.
use asked::Asked;
use listing::gather;
use names::operators::EXEC_STREAM;
use refusal::Code;
use state::Verdict;
use std::io;
use text::say;

const OUTER: u32 = 4_294_967_295;

fn passes<P: Print>(out: &P, performed: u32) -> io::Result<()> {
    say(out, b": passes, ")?;
    text::number(out, performed)?;
    say(out, b" operators performed\n")
}

// A fault in a motif, of which the first n bytes are there.
fn in_motif<P: Print>(
    out: &P,
    job: &[u8],
    list: &[u8],
    bytes: &[u8],
    n: usize,
    code: Code,
    v: Verdict,
) -> io::Result<()> {
    if bytes.len() < n {
        return Ok(());
    }
    fault::of_motif(
        out,
        job,
        list,
        v.records as usize,
        &bytes[0..n],
        code,
        v.inner as usize,
    )
}

fn inside<P: Print>(out: &P, job: &[u8], list: &[u8], code: Code, v: Verdict) -> io::Result<()> {
    let mut motif = rooms::work();
    let n = gather(job, list, v.records as usize, &mut motif);
    in_motif(out, job, list, &motif, n, code, v)
}

// Whether a job has no fault of its colours where pages start in gray, or else in RGB.
fn starts_well(job: &[u8], gray: bool) -> bool {
    let mut work = rooms::work();
    let mut list = rooms::list();
    checker::check(job, &mut work, &mut list, gray).code != Code::Colour.number()
}

// Of such a fault: the other start, if it has none there.
fn other_start<P: Print>(out: &P, job: &[u8], gray: bool) -> io::Result<()> {
    if starts_well(job, !gray) {
        asked::say_other_start(out, gray)?;
    }
    Ok(())
}

// A code of what a call comes to.
fn is_inner(code: Code) -> bool {
    matches!(
        code,
        Code::Source
            | Code::NotHeld
            | Code::Saved
            | Code::Cursor
            | Code::Colour
            | Code::Ring
            | Code::NoPattern
    )
}

// A call is refused by what it comes to.
fn is_call(job: &[u8], code: Code, at: u32) -> bool {
    number::byte_at(job, at as usize) == EXEC_STREAM && is_inner(code)
}

fn called<P: Print>(
    out: &P,
    job: &[u8],
    list: &[u8],
    code: Code,
    v: Verdict,
    gray: bool,
) -> io::Result<()> {
    let mut store = rooms::work();
    inner::of_call(
        out,
        job,
        list,
        v.records as usize,
        code,
        v.position as usize,
        gray,
        &mut store,
    )
}

// The cause and the cure.
fn reasons<P: Print>(
    out: &P,
    job: &[u8],
    list: &[u8],
    code: Code,
    v: Verdict,
    gray: bool,
) -> io::Result<()> {
    if v.inner != OUTER {
        return inside(out, job, list, code, v);
    }
    if is_call(job, code, v.position) {
        return called(out, job, list, code, v, gray);
    }
    fault::of_job(
        out,
        job,
        list,
        v.records as usize,
        code,
        v.position as usize,
    )
}

fn refused<P: Print>(
    out: &P,
    job: &[u8],
    list: &[u8],
    code: Code,
    v: Verdict,
    gray: bool,
) -> io::Result<()> {
    say(out, b": refused at byte ")?;
    text::plain(out, v.position)?;
    say(out, b": ")?;
    reasons(out, job, list, code, v, gray)?;
    if code == Code::Colour {
        other_start(out, job, gray)?;
    }
    say(out, b"\n")
}

// The operators and motifs, and the refused operator, marked.
fn listed_lines<P: Print>(
    out: &P,
    job: &[u8],
    list: &[u8],
    v: Verdict,
    gray: bool,
) -> io::Result<()> {
    let mut store = rooms::work();
    roster::lines(out, job, list, v.records as usize, gray, &mut store)?;
    if v.code == 0 {
        return Ok(());
    }
    marked::line(out, job, v.code, v.position as usize)
}

// The verdict on a job in a line, and its operators if they are asked for; the answer is whether it passes.
pub fn judged<P: Print>(out: &P, job: &[u8], asked: Asked) -> io::Result<bool> {
    let mut work = rooms::work();
    let mut list = rooms::list();
    let v = checker::check(job, &mut work, &mut list, asked.gray);
    match tell::code_of(v.code) {
        Some(code) => refused(out, job, &list, code, v, asked.gray)?,
        None => passes(out, v.performed)?,
    }
    if asked.listed {
        listed_lines(out, job, &list, v, asked.gray)?;
    }
    Ok(v.code == 0)
}
