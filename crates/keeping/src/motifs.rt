// The held motifs, as they are looked up.
ghost use Rattle.std.specs.Prelude.{◌≡◌};
ghost use Rattle.keeping.specs.Bytes.{bytes_in};

use motif::{LENGTH, ROW, START};
use names::limits::MOTIFS_MOST;

// Their table, how many they are, and the store that has their bytes.
#[derive(Clone, Copy)]
pub struct Motifs<'a> {
    pub table: &'a [usize; 704],
    pub many: usize,
    pub store: &'a [u8],
}

impl<'a> Motifs<'a> {
    // The bytes of the motif of a row; none where the table has no such row.
    pub fn bytes_of(&self, k: usize) -> &'a [u8]
        ensures { result.now ≡ bytes_in self.now.table.now self.now.store.now k }
    {
        if MOTIFS_MOST <= k {
            return b"";
        }
        let first = self.table[k * ROW + START];
        let end = first.saturating_add(self.table[k * ROW + LENGTH]);
        self.store.get(first..end).unwrap_or(b"")
    }
}
