// The header of a job or of a motif, and codes 3, 2 and 4.
ghost use Rattle.std.specs.Prelude.{◌≡◌, ◌≤◌, length, drop};
ghost use Rattle.scope.specs.Header.{may_stand, form_from, classed, header_of};
ghost use Rattle.scope.specs.Header.{ends as form_ends};
ghost use Rattle.header.specs.Headers.{form_as, FormWithin, header_as, HeaderWithin};

use number::byte_at;
use refusal::{Code, Refusal};
use setting::Class;
use white::between;

// What a header says: the class, whether the high byte of a number comes first, and where the items begin.
#[derive(Clone, Copy)]
pub struct Header {
    pub class: Class,
    pub high: bool,
    pub next: usize,
}

const TITLE: [u8; 10] = *b"HP-PCL XL;";

// Some header has the byte b at place i.
#[tactic(auto, unfolding(scope::specs::Header::may_stand))]
fn may_stand(i: usize, b: u8) -> bool
    ensures { result ≡ may_stand i b }
{
    match i {
        0 => b == b'(' || b == b')',
        1 => b == b' ',
        2..=11 => b == TITLE[i - 2],
        12 | 14 => between(b'0', b'9', b),
        13 => b == b';',
        15 => b == b'\n' || b == b';',
        255 => b == b'\n',
        _ => true,
    }
}

// How far the first 12 bytes, which are alike in all headers, are as they may stand; 0 if there are fewer.
fn past_title(s: &[u8]) -> usize
    ensures { (result ≤ length s.now) × (form_from result (drop result s.now) ≡ form_from 0 s.now) }
{
    if s.len() < 12 {
        return 0;
    }
    for i in 0..12 {
        if !may_stand(i, s[i]) {
            return i;
        }
    }
    12
}

// Where the header ends that the bytes begin with; 2 at the first place that no header can have so.
fn end_of(s: &[u8]) -> Result<usize, Refusal>
    ensures result_value { form_as result ≡ form_from 0 s.now }
    ensures form_within { FormWithin (length s.now) result }
{
    for i in past_title(s)..s.len() {
        let b = s[i];
        if !may_stand(i, b) {
            return Err(Refusal {
                code: Code::Header,
                place: i,
            });
        }
        if 15 <= i && b == b'\n' {
            return Ok(i + 1);
        }
    }
    Err(Refusal {
        code: Code::Header,
        place: s.len(),
    })
}

// A well-formed header of n bytes is taken if it says 1;1 or 2;1.
#[tactic(auto, unfolding(scope::specs::Header::classed))]
fn class_of(s: &[u8], n: usize) -> Result<Header, Refusal>
    requires { n ≤ length s.now }
    ensures result_value { header_as result ≡ classed s.now (form_ends n) }
    ensures header_within { HeaderWithin (length s.now) result }
{
    let class = match (byte_at(s, 12), byte_at(s, 14)) {
        (b'1', b'1') => Class::One,
        (b'2', b'1') => Class::Two,
        _ => return Err(Refusal {
            code: Code::Class,
            place: 12,
        }),
    };
    Ok(Header {
        class,
        high: byte_at(s, 0) == b'(',
        next: n,
    })
}

// What the header says, or the first of 3, 2 and 4.
#[tactic(auto, unfolding(scope::specs::Header::header_of, scope::specs::Header::classed))]
pub fn header_of(s: &[u8]) -> Result<Header, Refusal>
    ensures result_value { header_as result ≡ header_of s.now }
    ensures header_within { HeaderWithin (length s.now) result }
{
    if byte_at(s, 0) == b'\'' {
        return Err(Refusal {
            code: Code::Ascii,
            place: 0,
        });
    }
    let next = end_of(s)?;
    class_of(s, next)
}
