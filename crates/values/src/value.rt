// The types and the values that an attribute takes; of its numbers each kind says whether it takes whole ones or reals.
ghost use Rattle.std.specs.Prelude.{◌≡◌, ◌&&◌, ◌||◌, not, ℕ, T};
ghost use Rattle.std.specs.Float.{binary32};
ghost use Rattle.std.specs.Float.Ieee.{to_bits, is_nan};
ghost use Rattle.scope.specs.Choice.{between};
ghost use Rattle.scope.specs.Table.{M2};
ghost use Rattle.scope.specs.Attributes.{Two, above, point_in, sizes_in, first_of, type_taken, in_range};
ghost use Rattle.table.specs.Lines.{takes_as};
ghost use Rattle.values.specs.Views.{attribute_as};
ghost use Rattle.reals.specs.Reals.{Reads, Made};

use reals::{Numbers, numbers_at, whole};
use table::Kind;

// An attribute as the lent array has it.
#[derive(Clone, Copy)]
pub struct Attribute {
    pub number: usize,
    pub tag: usize,
    pub at: usize,
    pub count: usize,
    pub first: usize,
}

// The types taken.
#[tactic(auto, unfolding(scope::specs::Attributes::type_taken))]
pub fn type_taken(kind: Kind, tag: usize) -> bool
    ensures { (low high : ℕ) → result ≡ type_taken (takes_as kind low high) tag }
{
    match kind {
        Kind::E => tag == 0xc0,
        Kind::N => matches!(tag, 0xc0 | 0xc1),
        Kind::P => matches!(tag, 0xd0 | 0xd1 | 0xd3 | 0xd5),
        Kind::B => matches!(tag, 0xe0 | 0xe1 | 0xe3),
        Kind::A => tag == 0xc8,
        Kind::D => matches!(tag, 0xd1 | 0xd5),
        Kind::M => tag == 0xc0,
        Kind::M2 => matches!(tag, 0xc0 | 0xc8),
        Kind::L => matches!(tag, 0xc0 | 0xc1 | 0xc2),
        Kind::I => tag == 0xc3,
    }
}

// A value that is a whole number.
#[tactic(auto, unfolding(scope::specs::Attributes::first_of))]
fn first_number(s: &[u8], high: bool, a: Attribute) -> usize
    ensures { result ≡ first_of high s.now (attribute_as a) }
{
    whole(numbers_at(s, high, a.tag, a.first)) as usize
}

// Who takes a point: whole numbers, and reals that are finite.
fn is_point(numbers: Numbers) -> bool
    ensures { (t : Two) → Reads numbers t → result ≡ point_in t }
{
    matches!(numbers, Numbers::Whole(_, _) | Numbers::Real(_, _))
}

// A real by its bits: the sign bit is not set, and not all bits are zero.
#[tactic(auto, unfolding(scope::specs::Attributes::above))]
fn is_above(x: f32) -> bool
    requires { T (not (is_nan x)) }
    ensures { result ≡ above (to_bits binary32 x) }
{
    let bits = f32::to_bits(x);
    bits != 0 && bits < 2_147_483_648
}

// Who takes two sizes: whole numbers from the lowest on, and finite reals above zero.
fn are_sizes(low: usize, numbers: Numbers) -> bool
    requires { Made numbers }
    ensures { (t : Two) → Reads numbers t → result ≡ sizes_in low t }
{
    match numbers {
        Numbers::Whole(x, y) => low <= x as usize && low <= y as usize,
        Numbers::Real(x, y) => is_above(x) && is_above(y),
        Numbers::Neither => false,
    }
}

// MediaSize in 1;1: 0 to 12 and 14 to 16.
fn media_size(x: usize) -> bool
    ensures { result ≡ (between 0 12 x || between 14 16 x) }
{
    matches!(x, 0..=12 | 14..=16)
}

// MediaSize in 2;1: 0 to 21 and 96, or a name of 1 to 1,024 bytes.
#[tactic(auto, unfolding(scope::specs::Attributes::in_range))]
fn media_size_two(s: &[u8], high: bool, a: Attribute) -> bool
    ensures { result ≡ in_range high s.now M2 (attribute_as a) }
{
    if a.tag == 0xc8 {
        (1..=1024).contains(&a.count)
    } else {
        matches!(first_number(s, high, a), 0..=21 | 96)
    }
}

// The values taken, of a type that is taken.
#[tactic(auto, unfolding(scope::specs::Attributes::in_range))]
pub fn in_range(s: &[u8], high: bool, kind: Kind, low: usize, top: usize, a: Attribute) -> bool
    ensures { result ≡ in_range high s.now (takes_as kind low top) (attribute_as a) }
{
    match kind {
        Kind::E | Kind::N => (low..=top).contains(&first_number(s, high, a)),
        Kind::P => is_point(numbers_at(s, high, a.tag, a.first)),
        Kind::A => (low..=top).contains(&a.count),
        Kind::D => are_sizes(low, numbers_at(s, high, a.tag, a.first)),
        Kind::M => media_size(first_number(s, high, a)),
        Kind::M2 => media_size_two(s, high, a),
        Kind::B | Kind::L | Kind::I => true,
    }
}
