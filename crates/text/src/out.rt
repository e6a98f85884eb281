// Words and numbers on what prints.
use std::io;

pub fn say<P: Print>(out: &P, text: &[u8]) -> io::Result<()> {
    out.write_all(text)
}

// A number as plain digits.
pub fn plain<P: Print>(out: &P, n: u32) -> io::Result<()> {
    out.print(n)
}

// A number with a comma between the thousands.
pub fn number<P: Print>(out: &P, n: u32) -> io::Result<()> {
    let (billions, millions) = (n / 1_000_000_000, n / 1_000_000 % 1_000);
    let (thousands, ones) = (n / 1_000 % 1_000, n % 1_000);
    if 1_000_000_000 <= n {
        print!(out; "{billions},{millions:03},{thousands:03},{ones:03}")
    } else if 1_000_000 <= n {
        print!(out; "{millions},{thousands:03},{ones:03}")
    } else if 1_000 <= n {
        print!(out; "{thousands},{ones:03}")
    } else {
        print!(out; "{n}")
    }
}

// So many things of a name, which gets an s unless there is one.
pub fn many<P: Print>(out: &P, n: u32, thing: &[u8]) -> io::Result<()> {
    number(out, n)?;
    say(out, b" ")?;
    say(out, thing)?;
    if n != 1 {
        say(out, b"s")?;
    }
    Ok(())
}

// A byte as 01 writes it.
pub fn byte<P: Print>(out: &P, b: u8) -> io::Result<()> {
    print!(out; "0x{b:02x}")
}
