// Numbers that are kept up to a limit: past it, only that they are past it.
#![tactic(auto)]

ghost use Rattle.std.specs.Prelude.{◌≡◌, ℕ, ◌+◌, ◌<◌, min, max};

use names::limits::PERFORMED_MOST;

// A sum of counts; past 1,000,000 it is 1,000,001.
pub fn add(n: u32, m: u32) -> u32
    ensures { (x y : ℕ) → n ≡ min x 1_000_001 → m ≡ min y 1_000_001 → result ≡ min (x + y) 1_000_001 }
{
    n.saturating_add(m).min(PERFORMED_MOST + 1)
}

// A count; past 1,000,000 it is 1,000,001.
pub fn capped(n: usize) -> u32
    ensures { result ≡ min n 1_000_001 }
{
    n.min(1_000_001) as u32
}

// The most states saved, after m more at a time on top of l; past 24 it is 25.
pub fn higher(most: u32, l: u32, m: u32) -> u32
    ensures { (x y : ℕ) → most ≡ min x 25 → m ≡ min y 25 → (y ≡ 0 → result ≡ min x 25) × (0 < y → result ≡ min (max x (y + l)) 25) }
{
    if m == 0 {
        return most;
    }
    most.max(l.saturating_add(m)).min(25)
}
