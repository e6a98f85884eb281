// The held motifs, a line each, in the order of their names.
ghost use Rattle.std.specs.Prelude.{◌<◌};

use crate::named::name_of;
use motif::{LENGTH, ORDER, ROW, START};
use names::limits::MOTIFS_MOST;
use std::io;
use text::say;
use trail::Walk;

// The operators that a motif has itself.
fn operators(motif: &[u8]) -> usize {
    let mut walk = Walk::of_motif(motif);
    for many in 0..motif.len() {
        if !walk.pass(motif.len()) {
            return many;
        }
    }
    motif.len()
}

fn small(n: usize) -> u32 {
    (n % 4_294_967_296) as u32
}

// The line of the motif of a row: its name, its number, and how many bytes and operators it has.
fn line<P: Print>(out: &P, store: &[u8], motifs: &[usize; 704], k: usize) -> io::Result<()>
    requires { k < 64 }
{
    let first = motifs[k * ROW + START];
    let bytes = motifs[k * ROW + LENGTH];
    let motif = store.get(first..first.saturating_add(bytes)).unwrap_or(b"");
    say(out, b"    motif ")?;
    name_of(out, motifs, k)?;
    say(out, b", number ")?;
    text::plain(out, small(k + 1))?;
    say(out, b": ")?;
    text::many(out, small(bytes), b"byte")?;
    say(out, b", ")?;
    text::many(out, small(operators(motif)), b"operator")?;
    say(out, b"\n")
}

// The lines of so many motifs.
pub fn motifs_held<P: Print>(
    out: &P,
    store: &[u8],
    motifs: &[usize; 704],
    held: usize,
) -> io::Result<()> {
    for place in 0..motif::in_use(held) {
        line(out, store, motifs, motifs[ORDER + place] % MOTIFS_MOST)?;
    }
    Ok(())
}
