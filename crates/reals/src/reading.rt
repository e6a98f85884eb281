// The numbers of a value, read from its bytes by its tag.
ghost use Rattle.std.specs.Prelude.{◌≡◌, ◌+◌, ◌≤◌, ◌<◌, eqb};
ghost use Rattle.scope.specs.Choice.{pick};
ghost use Rattle.scope.specs.Number.{number as number_in};
ghost use Rattle.scope.specs.Attributes.{Two, reals, two_at, finite, whole_in, long_bytes};
ghost use Rattle.number.specs.Widths.{bytes_of};
ghost use Rattle.reals.specs.Reals.{Reads, Made};

use number::Width;

// The numbers of a value as they are read: two whole ones; two reals; or two reals of which one is infinite or no number.
#[derive(Clone, Copy)]
pub enum Numbers {
    Whole(u32, u32),
    Real(f32, f32),
    Neither,
}

// The first number of a value of ubytes or of uint16.
fn first_of(s: &[u8], high: bool, tag: usize, first: usize) -> u32
    ensures value { result ≡ number_in high (pick (eqb tag 0xc0) 1 2) s.now first }
    ensures upper_bound { result < 65536 }
{
    if tag == 0xc0 {
        number::number_at(s, first, Width::One, high)
    } else {
        number::number_at(s, first, Width::Two, high)
    }
}

// The number of a width so many bytes behind the first of a value.
fn behind(s: &[u8], high: bool, first: usize, by: usize, width: Width) -> u32
    requires { by ≤ 4 }
    ensures { result ≡ number_in high (bytes_of width) s.now (first + by) }
{
    if first < s.len() {
        number::number_at(s, first + by, width, high)
    } else {
        0
    }
}

// A real by its bits: its eight exponent bits are not all ones. Document 02 judges reals over their bits as a whole number, so no float is made to ask it.
#[tactic(auto, unfolding(scope::specs::Attributes::finite))]
fn is_finite(bits: u32) -> bool
    ensures { result ≡ finite bits }
{
    bits % 2_147_483_648 / 8_388_608 != 255
}

// Two reals by their bits; none is made of bits that are no number.
fn reals_of(x: u32, y: u32) -> Numbers
    ensures reads { Reads result (reals x y) }
    ensures made { Made result }
{
    if is_finite(x) && is_finite(y) {
        Numbers::Real(f32::from_bits(x), f32::from_bits(y))
    } else {
        Numbers::Neither
    }
}

// The numbers of a value of this tag, the first of which stands at a place.
pub fn numbers_at(s: &[u8], high: bool, tag: usize, first: usize) -> Numbers
    ensures reads { Reads result (two_at high s.now tag first) }
    ensures made { Made result }
{
    if tag == 0xd5 {
        let x = number::number_at(s, first, Width::Four, high);
        let y = behind(s, high, first, 4, Width::Four);
        return reals_of(x, y);
    }
    let x = first_of(s, high, tag, first);
    let y = behind(s, high, first, 2, Width::Two);
    Numbers::Whole(x, y)
}

// Who takes a whole number; a real is none.
pub fn whole(numbers: Numbers) -> u32
    ensures value { (t : Two) → Reads numbers t → result ≡ whole_in t }
    ensures upper_bound { Made numbers → result < 65536 }
{
    match numbers {
        Numbers::Whole(x, _) => x,
        Numbers::Real(_, _) | Numbers::Neither => 0,
    }
}

// A ubyte, uint16 or uint32.
pub fn long_at(s: &[u8], high: bool, tag: usize, first: usize) -> u32
    ensures { result ≡ number_in high (long_bytes tag) s.now first }
{
    if tag == 0xc2 {
        number::number_at(s, first, Width::Four, high)
    } else {
        first_of(s, high, tag, first)
    }
}
