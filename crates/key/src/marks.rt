// 64 marks as one number, mark 0 the lowest bit.
ghost use Rattle.std.specs.Prelude.{◌≡◌, true, ℕ, ◌<◌, eqb};
ghost use Rattle.scope.specs.Choice.{pick};
ghost use Rattle.key.specs.Mark.{mark};

use names::limits::MOTIFS_MOST;

// Mark j is set; no mark from 64 on is.
#[tactic(auto, unfolding(crate::specs::Mark::mark))]
pub fn has_mark(marks: usize, j: usize) -> bool
    ensures { j < 64 → result ≡ mark marks j }
{
    j < MOTIFS_MOST && (marks >> j) % 2 == 1
}

// The marks with mark j set, as they were from 64 on.
pub fn with_mark(marks: usize, j: usize) -> usize
    ensures { j < 64 → (k : ℕ) → mark result k ≡ pick (eqb j k) true (mark marks k) }
{
    if j < MOTIFS_MOST {
        marks | (1 << j)
    } else {
        marks
    }
}
