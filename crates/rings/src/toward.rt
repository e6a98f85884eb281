// How many calls lead from each motif to one of them, and whom each calls on the way.
ghost use Rattle.std.specs.Prelude.{◌≤◌};

use key::has_mark;
use motif::{CALLS, ROW, in_use};
use names::limits::MOTIFS_MOST;

// As many calls as count: one for each motif that may run at a time.
pub const CALLS_MOST: u8 = 32;

// The way from a motif to the goal: how many calls lead there, and the row of the motif that it calls first.
#[derive(Clone, Copy)]
pub struct Way {
    pub calls: u8,
    pub next: usize,
}

// The motif of row x calls that of row y.
fn calls(motifs: &[usize; 704], x: usize, y: usize) -> bool {
    x < MOTIFS_MOST && has_mark(motifs[x * ROW + CALLS], y)
}

// The motif of row y is the goal, or so many calls from it.
fn is_near(ways: &[Option<Way>; 64], goal: usize, y: usize, calls: u8) -> bool {
    if calls == 0 {
        return y == goal;
    }
    y < MOTIFS_MOST && matches!(ways[y], Some(way) if way.calls == calls)
}

// Round t: the motifs of so many rows from which t calls lead to the goal, and fewer do not, get their way.
fn round(motifs: &[usize; 704], many: usize, goal: usize, t: u8, ways: &mut [Option<Way>; 64])
    requires { (many ≤ 64) × (1 ≤ t) }
{
    for x in 0..many {
        if ways[x].is_some() {
            continue;
        }
        for y in 0..many {
            if calls(motifs, x, y) && is_near(ways, goal, y, t - 1) {
                ways[x] = Some(Way { calls: t, next: y });
                break;
            }
        }
    }
}

// The way from each row to the goal, none where no calls lead there; of the goal itself the shortest ring through it.
pub fn toward(motifs: &[usize; 704], held: usize, goal: usize) -> [Option<Way>; 64] {
    let mut ways = [None; 64];
    for t in 1..=CALLS_MOST {
        round(motifs, in_use(held), goal, t, &mut ways);
    }
    ways
}
