// A line of numbers.
use std::io;

// A number, then what parts it from the next.
fn number<P: Print>(out: &P, n: u64, then: &[u8]) -> io::Result<()> {
    out.print(n)?;
    out.write_all(then)
}

// Code, position, inner, records and performed, then what is behind them.
fn numbers<P: Print>(
    out: &P,
    code: u32,
    position: u32,
    inner: u32,
    records: u32,
    performed: u32,
    then: &[u8],
) -> io::Result<()> {
    number(out, code as u64, b" ")?;
    number(out, position as u64, b" ")?;
    number(out, inner as u64, b" ")?;
    number(out, records as u64, b" ")?;
    number(out, performed as u64, then)
}

// The five numbers of an answer.
// They come one by one, since this crate stands below `state`, whose Verdict has them.
pub fn five<P: Print>(
    out: &P,
    code: u32,
    position: u32,
    inner: u32,
    records: u32,
    performed: u32,
) -> io::Result<()> {
    numbers(out, code, position, inner, records, performed, b"\n")
}

// The five, and the checksums of the work buffer and of the list.
pub fn seven<P: Print>(
    out: &P,
    code: u32,
    position: u32,
    inner: u32,
    records: u32,
    performed: u32,
    work: u64,
    list: u64,
) -> io::Result<()> {
    numbers(out, code, position, inner, records, performed, b" ")?;
    number(out, work, b" ")?;
    number(out, list, b"\n")
}
