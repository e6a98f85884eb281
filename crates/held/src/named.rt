// The names of held motifs, from their table.
use motif::ROW;
use names::limits::MOTIFS_MOST;
use std::io;

// Says a name of so many letters, which stand in two numbers, eight in each.
fn name<P: Print>(out: &P, first: usize, next: usize, many: usize) -> io::Result<()> {
    let mut letters = [0u8; 16];
    letters[..8].copy_from_slice(&first.to_be_bytes());
    letters[8..].copy_from_slice(&next.to_be_bytes());
    text::part(out, &letters, many, 0)
}

// Says the name of the motif of a row.
pub fn name_of<P: Print>(out: &P, motifs: &[usize; 704], k: usize) -> io::Result<()> {
    if MOTIFS_MOST <= k {
        return Ok(());
    }
    name(
        out,
        motifs[k * ROW],
        motifs[k * ROW + 1],
        motifs[k * ROW + 2],
    )
}
