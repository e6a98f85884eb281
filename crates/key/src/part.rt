// The name that an operator gives, as a part of the bytes.
ghost use Rattle.std.specs.Prelude.{◌≡◌, List, ℕ, ◌+◌, ◌≤◌, length, take, drop};
ghost use Rattle.items.specs.Rows.{rows_of, Sized};
ghost use Rattle.scope.specs.Attributes.{bytes_in};

use attributes::Part;
use names::attributes::STREAM_NAME;

// As much of a part as lies within so many bytes.
fn within(len: usize, first: usize, count: usize) -> Part
    ensures count_bound { result.first + result.count ≤ len }
    ensures by_index { (s : List ℕ) → length s ≡ len → take result.count (drop result.first s) ≡ take count (drop first s) }
{
    if len <= first {
        return Part { first: 0, count: 0 };
    }
    Part {
        first,
        count: count.min(len - first),
    }
}

// StreamName of an operator.
pub fn name_in(s: &[u8], attrs: &[usize; 80], n: usize) -> Part
    ensures count_in_bounds { result.first + result.count ≤ length s.now }
    ensures s_value { Sized attrs.now n → take result.count (drop result.first s.now) ≡ bytes_in s.now (rows_of attrs.now n) 139 }
{
    let part = attributes::part_in(attrs, n, STREAM_NAME);
    within(s.len(), part.first, part.count)
}
