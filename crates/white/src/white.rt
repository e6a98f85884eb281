// White space between items, and a byte's being within a range.
ghost use Rattle.std.specs.Prelude.{◌≡◌, true, ◌+◌, ◌≤◌};
ghost use Rattle.scope.specs.Choice.{between as choice_between};
ghost use Rattle.scope.specs.Item.{white, after};
ghost use Rattle.white.specs.White.{Passed};

// Low to high, both included.
pub fn between(low: u8, high: u8, x: u8) -> bool
    ensures value { result ≡ choice_between low high x }
    ensures low_le_x { result ≡ true → (low ≤ x) × (x ≤ high) }
{
    (low..=high).contains(&x)
}

// White space is 0x00, 0x09 to 0x0d, and 0x20.
#[tactic(auto, unfolding(scope::specs::Item::white))]
pub fn is_white(b: u8) -> bool
    ensures { result ≡ white b }
{
    matches!(b, 0x00 | 0x09..=0x0d | 0x20)
}

// The four bytes from p on are all there, and all 0x20 or all 0x00, as most white space is.
fn four_white(s: &[u8], p: usize) -> bool
    ensures { result ≡ true → Passed s.now p (p + 4) }
{
    if s.len() < 4 || s.len() - 4 < p {
        return false;
    }
    let word = u32::from_le_bytes([s[p], s[p + 1], s[p + 2], s[p + 3]]);
    word == 0x2020_2020 || word == 0
}

// Past white space from `at` on by fours, as far as they go.
fn after_fours(s: &[u8], at: usize) -> usize
    ensures { after s.now result ≡ after s.now at }
{
    let mut next = at;
    while four_white(s, next) {
        next += 4;
    }
    next
}

// The first place from `at` on that is not white, where white space stands there.
fn behind_white(s: &[u8], at: usize) -> usize
    ensures { result ≡ after s.now at }
{
    let mut p = after_fours(s, at);
    while p < s.len() && is_white(s[p]) {
        p += 1;
    }
    p
}

// The first place from `at` on that is not white: most often it is right here.
pub fn after_white(s: &[u8], at: usize) -> usize
    ensures { result ≡ after s.now at }
{
    if at < s.len() && is_white(s[at]) {
        return behind_white(s, at);
    }
    at
}
