// The lines of a job's list, and behind each session those of its motifs.
use held::motifs_held;
use keeping::{Keeping, Motifs};
use listing::operator_at;
use names::operators::END_SESSION;
use std::io;
use trail::Walk;

// The lines of the motifs held.
fn held_lines<P: Print>(out: &P, motifs: Motifs) -> io::Result<()> {
    motifs_held(out, motifs.store, motifs.table, motifs.many)
}

// The lines of so many records of a job, whose pages start in gray or else in RGB; the store is room for the motifs. The motifs that a session held
// stand behind its end, and those of one that is not ended behind the last line.
pub fn lines<P: Print>(
    out: &P,
    job: &[u8],
    list: &[u8],
    records: usize,
    gray: bool,
    store: &mut [u8],
) -> io::Result<()> {
    let mut walk = Walk::of_job(job);
    let mut keeping = Keeping::none(trail::setting_in(job, gray));
    let mut depth: u32 = 0;
    for i in 0..records {
        depth = listing::line(out, job, list, i, depth)?;
        if operator_at(list, i).is_some() {
            walk.pass(job.len());
            keeping.keep(&walk, store);
            if walk.tag == Some(END_SESSION) {
                held_lines(out, keeping.motifs(store))?;
            }
        }
    }
    if depth != 0 {
        held_lines(out, keeping.motifs(store))?;
    }
    Ok(())
}
