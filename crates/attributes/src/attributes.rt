// An operator's attributes, looked up by number in the lent array, and their values.
ghost use Rattle.std.specs.Prelude.{◌≡◌, List, ℕ, ◌≤◌, ◌<◌, take, drop, IfSome};
ghost use Rattle.scope.specs.Attributes.{has as hasIn, value_in, long_in, bytes_in};
ghost use Rattle.items.specs.Rows.{rows_of, Sized};
ghost use Rattle.attributes.specs.Places.{place_of};

use reals::{long_at, numbers_at, whole};

// A part of the bytes: where it starts, and how long it is.
#[derive(Clone, Copy)]
pub struct Part {
    pub first: usize,
    pub count: usize,
}

// How many attributes there can be, of n: at most 16.
pub fn at_most(n: usize) -> usize
    ensures upper_bound { result ≤ 16 }
    ensures value { n ≤ 16 → result ≡ n }
{
    n.min(16)
}

// Which attribute is the first of a number.
fn place_of(attrs: &[usize; 80], n: usize, number: usize) -> Option<usize>
    ensures upper_bound { IfSome result (λ i. i < 16) }
    ensures value { Sized attrs.now n → result ≡ place_of number (rows_of attrs.now n) }
{
    let end = at_most(n);
    for i in 0..end {
        if attrs[i * 5] == number {
            return Some(i);
        }
    }
    None
}

// An attribute of this number is there.
pub fn is_given(attrs: &[usize; 80], n: usize, number: usize) -> bool
    ensures { Sized attrs.now n → result ≡ hasIn number (rows_of attrs.now n) }
{
    place_of(attrs, n, number).is_some()
}

// This attribute is there.
pub fn has(attrs: &[usize; 80], n: usize, number: u8) -> bool
    ensures { Sized attrs.now n → result ≡ hasIn number (rows_of attrs.now n) }
{
    is_given(attrs, n, number as usize)
}

// The value of this attribute, a whole number; 0 where it is not there.
pub fn value_in(s: &[u8], high: bool, attrs: &[usize; 80], n: usize, number: u8) -> u32
    ensures value { Sized attrs.now n → result ≡ value_in high s.now (rows_of attrs.now n) number }
    ensures upper_bound { result < 65536 }
{
    match place_of(attrs, n, number as usize) {
        Some(i) => whole(numbers_at(s, high, attrs[i * 5 + 1], attrs[i * 5 + 4])),
        None => 0,
    }
}

// The value of this attribute, a whole number of up to four bytes; 0 where it is not there.
pub fn long_in(s: &[u8], high: bool, attrs: &[usize; 80], n: usize, number: u8) -> u32
    ensures { Sized attrs.now n → result ≡ long_in high s.now (rows_of attrs.now n) number }
{
    match place_of(attrs, n, number as usize) {
        Some(i) => long_at(s, high, attrs[i * 5 + 1], attrs[i * 5 + 4]),
        None => 0,
    }
}

// Where the array of this attribute is; no bytes where it is not there.
pub fn part_in(attrs: &[usize; 80], n: usize, number: u8) -> Part
    ensures { Sized attrs.now n → (s : List ℕ) → bytes_in s (rows_of attrs.now n) number ≡ take result.count (drop result.first s) }
{
    match place_of(attrs, n, number as usize) {
        Some(i) => Part {
            first: attrs[i * 5 + 4],
            count: attrs[i * 5 + 3],
        },
        None => Part { first: 0, count: 0 },
    }
}
