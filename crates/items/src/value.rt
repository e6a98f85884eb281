// Values: one, two or four numbers, or an array. Codes 5, 6, 7 and 8.
ghost use Rattle.std.specs.Prelude.{◌≡◌, ℕ, ◌≤◌, ◌<◌, length, get_or};
ghost use Rattle.scope.specs.Item.{width_of, kind_of, counted_at, array_at, value_of};
ghost use Rattle.number.specs.Widths.{bytes_of, width_in};
ghost use Rattle.items.specs.Values.{kind_as, KindFits, starts_as, Starts, Taken};

use names::limits::{ARRAY_MOST, ATTRIBUTES_MOST};
use number::{Width, bytes_of, number_at};
use refusal::{Code, Refusal};
use white::between;

// What a value's tag starts: so many numbers, an array; or it is no value's tag.
#[derive(Clone, Copy)]
enum Kind {
    Plain(u32),
    Array,
    Other,
}

// How many numbers a value has, and the place of the first.
#[derive(Clone, Copy)]
pub struct Value {
    pub count: u32,
    pub first: usize,
}

// The bytes of a number of type k.
#[tactic(auto, unfolding(scope::specs::Item::width_of))]
fn width_of(k: u8) -> usize
    ensures value { result ≡ width_of k }
    ensures upper_bound { result ≤ 4 }
{
    match k {
        0 => 1,
        1 | 3 => 2,
        _ => 4,
    }
}

// What a tag starts. One test after the other, since most values are plain: a match on ranges made an operator with attributes 7 % slower.
#[tactic(auto, unfolding(scope::specs::Item::kind_of, number::specs::Widths::width_in))]
fn kind_of(t: u8) -> Kind
    ensures result_value { kind_as (width_in t) result ≡ kind_of t }
    ensures kind_fits { KindFits result }
{
    if between(0xc0, 0xc5, t) {
        return Kind::Plain(1);
    }
    if between(0xc8, 0xcd, t) {
        return Kind::Array;
    }
    if between(0xd0, 0xd5, t) {
        return Kind::Plain(2);
    }
    if between(0xe0, 0xe5, t) {
        return Kind::Plain(4);
    }
    Kind::Other
}

// The bytes of a number of a value by its tag.
#[tactic(auto, unfolding(number::specs::Widths::width_in))]
pub fn width_in(t: u8) -> usize
    ensures value { result ≡ width_in t }
    ensures upper_bound { result ≤ 4 }
{
    width_of(t % 8)
}

// An array whose length is of a width: 5 if the length is not there, 8 if it is too great.
#[tactic(auto, unfolding(scope::specs::Item::counted_at, scope::specs::Item::elements_at))]
fn counted_at(s: &[u8], at: usize, width: Width, high: bool) -> Result<Value, Refusal>
    requires { at < length s.now }
    ensures by_index { (w : ℕ) → starts_as s.now at w result ≡ counted_at high s.now at w (bytes_of width) }
    ensures starts { Starts at result }
{
    let first = at + 2 + bytes_of(width);
    if s.len() < first {
        return Err(Refusal {
            code: Code::Cut,
            place: at,
        });
    }
    let count = number_at(s, at + 2, width, high);
    if ARRAY_MOST < count as usize {
        return Err(Refusal {
            code: Code::LongArray,
            place: at,
        });
    }
    Ok(Value { count, first })
}

// An array: at once a 0xc0 or 0xc1 tag with the length; another byte there is 6.
#[tactic(auto, unfolding(scope::specs::Item::array_at))]
fn array_at(s: &[u8], at: usize, high: bool) -> Result<Value, Refusal>
    requires { at < length s.now }
    ensures by_index { (w : ℕ) → starts_as s.now at w result ≡ array_at high s.now at w }
    ensures starts { Starts at result }
{
    let i = at + 1;
    if s.len() <= i {
        return Err(Refusal {
            code: Code::Cut,
            place: at,
        });
    }
    match s[i] {
        0xc0 => counted_at(s, at, Width::One, high),
        0xc1 => counted_at(s, at, Width::Two, high),
        _ => Err(Refusal {
            code: Code::NoItem,
            place: i,
        }),
    }
}

// The start of the value whose tag stands at `at`, after n pairs: 6 if it is no value's tag, then 7, then what an array's start has.
#[tactic(auto, unfolding(scope::specs::Item::value_of))]
pub fn value_at(s: &[u8], at: usize, n: usize, high: bool) -> Result<Value, Refusal>
    ensures result_value { starts_as s.now at (width_in (get_or s.now at 0)) result ≡ value_of high s.now at n (kind_of (get_or s.now at 0)) }
    ensures starts { Starts at result }
    ensures taken { Taken (length s.now) at n result }
{
    if s.len() <= at {
        return Err(Refusal {
            code: Code::NoItem,
            place: at,
        });
    }
    match kind_of(s[at]) {
        Kind::Other => Err(Refusal {
            code: Code::NoItem,
            place: at,
        }),
        _ if ATTRIBUTES_MOST <= n => Err(Refusal {
            code: Code::Seventeenth,
            place: at,
        }),
        Kind::Plain(count) => Ok(Value {
            count,
            first: at + 1,
        }),
        Kind::Array => array_at(s, at, high),
    }
}
