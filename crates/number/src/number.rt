// Numbers of one, two or four bytes, in either byte order.
ghost use Rattle.std.specs.Prelude.{◌≡◌, ◌+◌, ◌^◌, ◌≤◌, ◌<◌, get_or};
ghost use Rattle.scope.specs.Number.{number};
ghost use Rattle.number.specs.Widths.{bytes_of};

#[derive(Clone, Copy)]
pub enum Width {
    One,
    Two,
    Four,
}

// The byte at a place, and 0 past the end.
pub fn byte_at(s: &[u8], at: usize) -> u8
    ensures { result ≡ get_or s.now at 0 }
{
    s.get(at).copied().unwrap_or(0)
}

// How many bytes a width has.
pub fn bytes_of(width: Width) -> usize
    ensures value { result ≡ bytes_of width }
    ensures upper_bound { result ≤ 4 }
{
    match width {
        Width::One => 1,
        Width::Two => 2,
        Width::Four => 4,
    }
}

// The number of two bytes at a place, in the byte order.
fn two_at(s: &[u8], at: usize, high: bool) -> u16
    requires { at < 2 ^ 63 }
    ensures { result ≡ number high 2 s.now at }
{
    let bytes = [byte_at(s, at), byte_at(s, at + 1)];
    if high {
        u16::from_be_bytes(bytes)
    } else {
        u16::from_le_bytes(bytes)
    }
}

// The number of four bytes at a place, in the byte order.
fn four_at(s: &[u8], at: usize, high: bool) -> u32
    requires { at < 2 ^ 63 }
    ensures { result ≡ number high 4 s.now at }
{
    let bytes = [
        byte_at(s, at),
        byte_at(s, at + 1),
        byte_at(s, at + 2),
        byte_at(s, at + 3),
    ];
    if high {
        u32::from_be_bytes(bytes)
    } else {
        u32::from_le_bytes(bytes)
    }
}

// The number of a width at a place; bytes past the end count as 0.
pub fn number_at(s: &[u8], at: usize, width: Width, high: bool) -> u32
    ensures value { result ≡ number high (bytes_of width) s.now at }
    ensures upper_bound { result < 256 ^ bytes_of width }
{
    if s.len() <= at {
        return 0;
    }
    match width {
        Width::One => u32::from(byte_at(s, at)),
        Width::Two => u32::from(two_at(s, at, high)),
        Width::Four => four_at(s, at, high),
    }
}
