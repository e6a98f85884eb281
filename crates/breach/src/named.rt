// The motif that a call names.
use held::name_of;
use keeping::Motifs;
use std::io;
use text::say;

// Says the name of the motif of a row.
pub(crate) fn name<P: Print>(out: &P, motifs: Motifs, row: usize) -> io::Result<()> {
    name_of(out, motifs.table, row)
}

// The motif that the job calls, if what is told is of another.
pub(crate) fn by_call<P: Print>(
    out: &P,
    motifs: Motifs,
    row: usize,
    called: usize,
) -> io::Result<()> {
    if row == called {
        return Ok(());
    }
    say(out, b", which the call of ")?;
    name(out, motifs, called)?;
    say(out, b" comes to")
}
