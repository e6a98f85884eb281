// What a file is that does not begin as PCL XL does.
use crate::causes::Cause;
use number::byte_at;
use refusal::Code;

// Empty, printer commands, a PDF, a picture, a job's text, anything else, zero bytes.
#[derive(Clone, Copy)]
pub enum Kind {
    Empty,
    Pjl,
    Pdf,
    Png,
    Notation,
    Foreign,
    Zeros,
}

impl Kind {
    // The cause and the cure.
    pub(crate) fn sentences(self) -> (&'static str, &'static str) {
        match self {
            Kind::Empty => (
                "no PCL XL file, but an empty one",
                "save the job again, and send that file",
            ),
            Kind::Pjl => (
                "PJL commands stand before the job",
                "take out all bytes before `) HP-PCL XL`, and those behind the last EndSession",
            ),
            Kind::Pdf => (
                "no PCL XL file, but a PDF",
                "print it to a file by a driver for PCL XL 1;1, and send that",
            ),
            Kind::Png => (
                "no PCL XL file, but a PNG picture",
                "draw it in a job by BeginImage",
            ),
            Kind::Notation => (
                "no PCL XL file, but a job's text",
                "make bytes of it by `job assemble` (README, A job by hand)",
            ),
            Kind::Foreign => (
                "no PCL XL file: it does not begin as one",
                "begin the file with `) HP-PCL XL;1;1` and a line feed, nothing before it",
            ),
            Kind::Zeros => (
                "no PCL XL file: it begins with zero bytes, as an adapter pads with them",
                "send it from its header on: zero bytes may stand behind the header, not before it",
            ),
        }
    }
}

// Two bytes that other files begin with.
fn begun(a: u8, b: u8) -> Kind {
    match a {
        0x00 => Kind::Zeros,
        0x1b | b'@' => Kind::Pjl,
        b'%' => Kind::Pdf,
        0x89 => Kind::Png,
        b'h' => notation(b),
        b'#' => Kind::Notation,
        _ => Kind::Foreign,
    }
}

// `he` begins the word `header`.
fn notation(b: u8) -> Kind {
    if b == b'e' {
        Kind::Notation
    } else {
        Kind::Foreign
    }
}

// Of a file with a first byte that may be a job's.
fn in_header(b: u8) -> Cause {
    if b == 0x0d {
        Cause::CarriageReturn
    } else {
        Cause::Own(Code::Header)
    }
}

// The cause of code 2 at a place.
pub fn header_cause(s: &[u8], at: usize) -> Cause {
    if s.is_empty() {
        return Cause::File(Kind::Empty);
    }
    if at == 0 {
        return Cause::File(begun(byte_at(s, 0), byte_at(s, 1)));
    }
    in_header(byte_at(s, at))
}
