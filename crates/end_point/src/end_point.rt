// A line by its end point with nothing between its items, as most of a drawing is.
ghost use Rattle.std.specs.Prelude.{◌≡◌, true, ◌||◌, ℕ, ◌+◌, ◌*◌, ◌^◌, ◌≤◌, ◌<◌, eqb, length, IfSome};
ghost use Rattle.scope.specs.Names.{LinePath, LineRelPath};
ghost use Rattle.scope.specs.Number.{number};
ghost use Rattle.scope.specs.Attributes.{two_at, finite, point_in};
ghost use Rattle.end_point.specs.EndPoint.{point_length, ends_at, real_line_to, line_to, Point, Drawn, Ends, Lined};

use names::attributes::END_POINT;
use names::operators::{LINE_PATH, LINE_REL_PATH};

// The bytes of a point's whole numbers by its tag, if it has any.
#[tactic(auto, using(crate::specs::EndPoint::point_ubyte, crate::specs::EndPoint::point_uint16, crate::specs::EndPoint::point_sint16), unfolding(crate::specs::EndPoint::point_length))]
fn point_length(tag: u8) -> Option<usize>
    ensures value { result ≡ point_length tag }
    ensures point { IfSome result (λ bytes. Point tag bytes × (bytes ≤ 4)) }
{
    match tag {
        0xd0 => Some(2),
        0xd1 | 0xd3 => Some(4),
        _ => None,
    }
}

// LinePath or LineRelPath.
#[tactic(auto, using(crate::specs::EndPoint::drawn_path, crate::specs::EndPoint::drawn_rel))]
fn is_drawn_line(tag: u8) -> bool
    ensures value { result ≡ (eqb tag LinePath || eqb tag LineRelPath) }
    ensures drawn { result ≡ true → Drawn tag }
{
    matches!(tag, LINE_PATH | LINE_REL_PATH)
}

// At p stand 0xf8, EndPoint's number, and LinePath or LineRelPath.
#[tactic(auto, unfolding(crate::specs::EndPoint::ends_at))]
fn ends_at(s: &[u8], p: usize) -> bool
    requires { p < 2 ^ 63 + 16 }
    ensures value { result ≡ ends_at s.now p }
    ensures ends { result ≡ true → Ends s.now p }
{
    let op = p + 2;
    op < s.len() && s[p] == 0xf8 && s[p + 1] == END_POINT && is_drawn_line(s[op])
}

// A real by its two highest bytes: its exponent bits, the eight behind the sign, are not all ones.
fn is_finite(top: u8, next: u8) -> bool
    ensures { (low : ℕ) → low < 65536 → result ≡ finite ((top * 256 + next) * 65536 + low) }
{
    (top as u32 * 256 + next as u32) % 32_768 / 128 != 255
}

// The real at p is finite.
fn is_finite_at(s: &[u8], high: bool, p: usize) -> bool
    requires { p + 4 ≤ length s.now }
    ensures { result ≡ finite (number high 4 s.now p) }
{
    if high {
        is_finite(s[p], s[p + 1])
    } else {
        is_finite(s[p + 3], s[p + 2])
    }
}

// The two reals at p are finite.
#[tactic(auto, unfolding(scope::specs::Attributes::two_at))]
fn are_finite(s: &[u8], high: bool, p: usize) -> bool
    requires { p + 8 ≤ length s.now }
    ensures { result ≡ point_in (two_at high s.now 0xd5 p) }
{
    is_finite_at(s, high, p) && is_finite_at(s, high, p + 4)
}

// Where such a line by two finite reals, whose tag stands at `at`, has its operator.
#[tactic(auto, using(crate::specs::EndPoint::point_real), unfolding(crate::specs::EndPoint::real_line_to))]
fn real_line_to(s: &[u8], high: bool, at: usize) -> Option<usize>
    requires { at < length s.now }
    ensures value { result ≡ real_line_to high s.now at }
    ensures lined { Lined high s.now at result }
{
    if at + 11 < s.len() && s[at] == 0xd5 && are_finite(s, high, at + 1) && ends_at(s, at + 9) {
        Some(at + 11)
    } else {
        None
    }
}

// Where such a line, whose point's tag stands at `at`, has its operator; or there is no such line.
#[tactic(auto, unfolding(crate::specs::EndPoint::line_to))]
pub fn line_to(s: &[u8], high: bool, at: usize) -> Option<usize>
    ensures value { result ≡ line_to high s.now at }
    ensures lined { Lined high s.now at result }
{
    if s.len() <= at {
        return None;
    }
    let Some(bytes) = point_length(s[at]) else {
        return real_line_to(s, high, at);
    };
    if !ends_at(s, at + 1 + bytes) {
        return None;
    }
    Some(at + 3 + bytes)
}
