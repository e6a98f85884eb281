// Held motifs by name.
ghost use Rattle.std.specs.Prelude.{◌≡◌, List, ◌≤◌, ◌<◌};
ghost use Rattle.scope.specs.Choice.{same};
ghost use Rattle.scope.specs.Motif.{Motif};
ghost use Rattle.key.specs.Keys.{key_of};
ghost use Rattle.key.specs.Views.{key_as};
ghost use Rattle.motif.specs.Held.{key_in, Keeps, Finds};
ghost use Rattle.motif.specs.Search.{few, find_in, Row};

use crate::column::place_of;
use key::{Key, key_of};
use names::limits::MOTIFS_MOST;

// The table of held motifs has a row of ten numbers for each: the first three are its name.
pub const ROW: usize = 10;

// Where its bytes begin in the store, and how many they are.
pub const START: usize = 3;

pub const LENGTH: usize = 4;

// Its level: within how many it nests, 0 if a call of it is refused; and its summary.
pub const LEVEL: usize = 5;

pub const SUM: usize = 6;

// A mark for each row that it calls, and 1 if it names a motif that is not held.
pub const CALLS: usize = 7;

pub const MISSING: usize = 8;

// Behind the 64 rows the column of their numbers in the order of names.
pub const ORDER: usize = 640;

// The rows in use; 64 at most.
pub fn in_use(held: usize) -> usize
    ensures value { result ≡ few held }
    ensures upper_bound { result ≤ 64 }
    ensures value_2 { held ≤ 64 → result ≡ held }
{
    held.min(MOTIFS_MOST)
}

// Row i is that of a name: lengths first, most names differ there.
fn is_name(motifs: &[usize; 704], i: usize, key: Key) -> bool
    requires { i < 64 }
    ensures { result ≡ same (key_in motifs.now i) (key_as key) }
{
    motifs[i * ROW + 2] == key.long
        && motifs[i * ROW] == key.first
        && motifs[i * ROW + 1] == key.next
}

// The row of the motif held under a name, if one is: it stands at the first place whose name is not before that one.
pub fn find(motifs: &[usize; 704], held: usize, name: &[u8]) -> Option<usize>
    ensures row { Row result }
    ensures value { result ≡ find_in motifs.now (key_of name.now) (few held) }
    ensures finds { (ms : List Motif) → Keeps motifs.now held ms → Finds ms name.now result }
{
    let key = key_of(name);
    let n = in_use(held);
    let place = place_of(motifs, n, key);
    if n <= place {
        return None;
    }
    let i = motifs[ORDER + place] % MOTIFS_MOST;
    is_name(motifs, i, key).then_some(i)
}
