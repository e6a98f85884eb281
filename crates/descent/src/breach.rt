// The motif and in it the operator by which a call breaks the rule of a code.
use bare::bare;
use down::{Breach, down, lacking};
use keeping::Motifs;
use page::page::Page;

// The operator by which the call of a motif at a place of the job breaks the rule of a code, with the page before the call.
pub fn breach_in<'a>(
    job: &[u8],
    code: u32,
    to: usize,
    gray: bool,
    motifs: Motifs<'a>,
    page: Page,
    called: usize,
) -> Option<Breach<'a>> {
    match code {
        21 => lacking(gray, motifs, page, called),
        34 => bare(job, to, motifs, called),
        _ => Some(down(code, gray, motifs, page, called)),
    }
}
