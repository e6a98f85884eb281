// The page at a place of a job, and the motifs held there.
use arm::seen::Seen;
use down::performed;
use keeping::{Keeping, Motifs};
use names::operators::BEGIN_PAGE;
use page::page::{Page, blank};
use trail::Walk;

// The walk that has come to an operator of the job, the page before it, and the motifs held there.
#[derive(Drop)]
pub struct Before<'a> {
    pub walk: Walk<'a>,
    pub page: Page,
    pub keeping: Keeping<'a>,
}

// The page after an operator of the job.
fn after(walk: &Walk, gray: bool, motifs: Motifs, page: Page) -> Page {
    if walk.tag == Some(BEGIN_PAGE) {
        return blank(gray);
    }
    performed(walk, gray, motifs, Seen::from(page, 0)).page
}

// How matters stand before the operator at a place of a job, whose pages start in gray or else in RGB; the store is room for the motifs.
pub fn before_call<'a>(job: &'a [u8], to: usize, gray: bool, store: &mut [u8]) -> Before<'a> {
    let mut walk = Walk::of_job(job);
    let mut page = blank(gray);
    let mut keeping = Keeping::none(trail::setting_in(job, gray));
    for _ in 0..job.len() {
        if !walk.pass(to) {
            break;
        }
        keeping.keep(&walk, store);
        page = after(&walk, gray, keeping.motifs(store), page);
    }
    Before {
        walk,
        page,
        keeping,
    }
}
