// Pairs of a value and an attribute number, which are stored as attributes. Code 5 of both, and 6 of the number.
ghost use Rattle.std.specs.Prelude.{◌≡◌, ◌<◌, length};
ghost use Rattle.scope.specs.Item.{numbered, number_at, pair_at};
ghost use Rattle.number.specs.Widths.{bytes_of};
ghost use Rattle.items.specs.Rows.{with_row, with_pair};
ghost use Rattle.items.specs.Values.{pair_as, told};

use crate::value::{Value, value_at, width_in};
use number::{Width, byte_at, bytes_of, number_at};
use refusal::{Code, Refusal};
use white::after_white;

// Stores an attribute as attribute n.
#[tactic(auto, unfolding(crate::specs::Rows::with_row))]
fn store(attrs: &mut [usize; 80], n: usize, number: u32, tag: u8, at: usize, value: Value)
    requires { n < 16 }
    ensures { attrs.new ≡ with_row attrs.old n number tag at value.count value.first }
{
    let i = n * 5;
    attrs[i] = number as usize;
    attrs[i + 1] = tag as usize;
    attrs[i + 2] = at;
    attrs[i + 3] = value.count as usize;
    attrs[i + 4] = value.first;
}

// The attribute number of a width, whose tag stands at p: with it the pair is stored as attribute n.
#[tactic(auto, unfolding(scope::specs::Item::numbered))]
fn numbered_at(
    s: &[u8],
    at: usize,
    value: Value,
    p: usize,
    width: Width,
    high: bool,
    attrs: &mut [usize; 80],
    n: usize,
) -> Result<usize, Refusal>
    requires { (at < length s.now) × (p < length s.now) × (n < 16) }
    ensures value { pair_as result ≡ told (length s.now) (numbered high s.now at value.count value.first p (bytes_of width)) }
    ensures attrs_after { attrs.new ≡ with_pair attrs.old n (numbered high s.now at value.count value.first p (bytes_of width)) }
{
    let next = p + 1 + bytes_of(width);
    if s.len() < next {
        return Err(Refusal {
            code: Code::Cut,
            place: p,
        });
    }
    let number = number_at(s, p + 1, width, high);
    store(attrs, n, number, s[at], at, value);
    Ok(next)
}

// The item at p, after the value at `at`: 0xf8 and one byte, 0xf9 and two; any other may not come here. Where the bytes end, the value waits: 27.
#[tactic(auto, unfolding(scope::specs::Item::number_at))]
fn after_value(
    s: &[u8],
    at: usize,
    value: Value,
    p: usize,
    high: bool,
    attrs: &mut [usize; 80],
    n: usize,
) -> Result<usize, Refusal>
    requires { (at < length s.now) × (n < 16) }
    ensures value { pair_as result ≡ told (length s.now) (number_at high s.now at value.count value.first p) }
    ensures attrs_after { attrs.new ≡ with_pair attrs.old n (number_at high s.now at value.count value.first p) }
{
    if s.len() <= p {
        return Err(Refusal {
            code: Code::NotEnded,
            place: s.len(),
        });
    }
    match s[p] {
        0xf8 => numbered_at(s, at, value, p, Width::One, high, attrs, n),
        0xf9 => numbered_at(s, at, value, p, Width::Two, high, attrs, n),
        _ => Err(Refusal {
            code: Code::NoItem,
            place: p,
        }),
    }
}

// Past the pair whose value's tag stands at `at`, after n pairs; it is stored as attribute n. Mostly 0xf8 stands right behind the value.
#[tactic(auto, using(crate::proofs::Pairs::pair_by), unfolding(scope::specs::Item::pair_at, scope::specs::Item::pair_of))]
pub fn pair_at(
    s: &[u8],
    at: usize,
    n: usize,
    high: bool,
    attrs: &mut [usize; 80],
) -> Result<usize, Refusal>
    ensures value { pair_as result ≡ told (length s.now) (pair_at high s.now at n) }
    ensures attrs_after { attrs.new ≡ with_pair attrs.old n (pair_at high s.now at n) }
{
    let value = value_at(s, at, n, high)?;
    let next = value.first + value.count as usize * width_in(s[at]);
    if s.len() < next {
        return Err(Refusal {
            code: Code::Cut,
            place: at,
        });
    }
    if byte_at(s, next) == 0xf8 {
        return numbered_at(s, at, value, next, Width::One, high, attrs, n);
    }
    after_value(s, at, value, after_white(s, next), high, attrs, n)
}
