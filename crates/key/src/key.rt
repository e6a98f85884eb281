// A name as three numbers.
ghost use Rattle.std.specs.Prelude.{◌≡◌, ◌≤◌};
ghost use Rattle.key.specs.Keys.{packed, key_of};
ghost use Rattle.key.specs.Views.{key_as};

use number::byte_at;

// A name: its first eight bytes, its next eight, its length.
#[derive(Clone, Copy)]
pub struct Key {
    pub first: usize,
    pub next: usize,
    pub long: usize,
}

// Eight bytes from a place on as one number, the first the highest; 0 past the end.
fn pack(s: &[u8], from: usize) -> usize
    requires { from ≤ 8 }
    ensures { result ≡ packed s.now from 8 }
{
    let mut v: usize = 0;
    for i in 0..8 {
        v = v * 256 + usize::from(byte_at(s, from + i));
    }
    v
}

// The three numbers of a name.
#[tactic(auto, unfolding(crate::specs::Keys::key_of))]
pub fn key_of(name: &[u8]) -> Key
    ensures { key_as result ≡ key_of name.now }
{
    Key {
        first: pack(name, 0),
        next: pack(name, 8),
        long: name.len(),
    }
}
