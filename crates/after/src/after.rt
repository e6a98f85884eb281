// Where the job stands after an operator.
ghost use Rattle.std.specs.Prelude.{◌≡◌, List, ℕ, length, drop};
ghost use Rattle.setting.specs.Views.{setting_as};
ghost use Rattle.pattern_rows.specs.Numbers.{OfSession, numbers_in};
ghost use Rattle.place.specs.Places.{Beside};
ghost use Rattle.gathering.specs.Afterwards.{After};
ghost use Rattle.after.specs.Begins.{opened_after, Begins, Draws};
ghost use Rattle.place.specs.declared.place.Busy.TheVariants as busy_is;
ghost use Rattle.place.specs.declared.place.Place.TheVariants as place_is;

use crate::hatching::define_open;
use early::Early;
use gathering::{Stream, reading_after};
use motif::Kept;
use names::operators::{
    BEGIN_IMAGE, BEGIN_PAGE, BEGIN_STREAM, CLOSE_DATA_SOURCE, END_PAGE, END_SESSION,
    OPEN_DATA_SOURCE,
};
use order::Picture;
use page::page::Page;
use place::{Busy, Place};
use reader::Operator;
use setting::Setting;

// OpenDataSource opens the source, CloseDataSource closes it.
#[tactic(auto, unfolding(crate::specs::Begins::opened_after))]
fn opened_after(tag: u8, opened: bool) -> bool
    ensures { result ≡ opened_after tag opened }
{
    match tag {
        OPEN_DATA_SOURCE => true,
        CLOSE_DATA_SOURCE => false,
        _ => opened,
    }
}

// BeginPage begins a page, for which no pattern is defined, BeginStream a motif.
fn begun(
    job: &[u8],
    set: Setting,
    o: Operator,
    attrs: &[usize; 80],
    patterns: &mut [u16; 4487],
) -> Busy
    ensures beside { Beside patterns.old patterns.new }
    ensures patterns_unchanged { numbers_in patterns.new OfSession ≡ numbers_in patterns.old OfSession }
    ensures begins { Begins job.now attrs.now set.gray o patterns.new result }
{
    let tag = o.tag;
    if tag == BEGIN_PAGE {
        patterns::clear(patterns, pattern_rows::PAGE);
        return Busy::Drawing(page::page::blank(set.gray), Picture::Nothing);
    }
    if tag == BEGIN_STREAM {
        let name = key::name_in(job, attrs, o.count);
        return Busy::Reading(name.first, name.count, 0);
    }
    Busy::Resting
}

// In a session at rest: EndSession drops all.
fn resting_after(
    job: &[u8],
    set: Setting,
    o: Operator,
    attrs: &[usize; 80],
    opened: bool,
    kept: Kept,
    patterns: &mut [u16; 4487],
) -> Place
    ensures patterns_len_unchanged { length patterns.new ≡ length patterns.old }
    ensures after { (early : Early) (page : Page) (work t : List ℕ)
        → After job.now attrs.now (setting_as set) o early page work t patterns.old
        (place_is.Inside opened kept busy_is.Resting) work t patterns.new result }
{
    let tag = o.tag;
    if tag == END_SESSION {
        return Place::Outside(true);
    }
    Place::Inside(
        opened_after(tag, opened),
        kept,
        begun(job, set, o, attrs, patterns),
    )
}

// EndPage ends a page; another operator leaves it as given, and perhaps an image open. Few are of an image, so that is asked first.
fn drawn_on(
    job: &[u8],
    high: bool,
    o: Operator,
    attrs: &[usize; 80],
    page: Page,
    picture: Picture,
) -> Busy
    ensures { Draws job.now attrs.now high o page picture result }
{
    let tag = o.tag;
    if tag == END_PAGE {
        return Busy::Resting;
    }
    if tag < BEGIN_IMAGE {
        return Busy::Drawing(page, picture);
    }
    Busy::Drawing(
        page,
        order::picture_after(job, high, tag, attrs, o.count, picture),
    )
}

// What the rules let pass: what the operator goes on with, and the page after it.
#[derive(Clone, Copy)]
pub struct Passed {
    pub early: Early,
    pub page: Page,
}

// After an operator that no rule refuses. BeginSession begins a session, without motifs and patterns.
pub fn place_after(
    job: &[u8],
    set: Setting,
    o: Operator,
    attrs: &[usize; 80],
    passed: Passed,
    place: Place,
    work: &mut [u8],
    motifs: &mut [usize; 704],
    patterns: &mut [u16; 4487],
) -> Place
    ensures work_len_unchanged { length work.new ≡ length work.old }
    ensures motifs_len_unchanged { length motifs.new ≡ length motifs.old }
    ensures patterns_len_unchanged { length patterns.new ≡ length patterns.old }
    ensures work_unchanged { drop 16384 work.new ≡ drop 16384 work.old }
    ensures after { After job.now attrs.now (setting_as set) o passed.early passed.page
        work.old motifs.old patterns.old place work.new motifs.new patterns.new result }
{
    let early = passed.early;
    let page = passed.page;
    match place {
        Place::Outside(_) => {
            patterns::clear(patterns, pattern_rows::SESSION);
            Place::Inside(false, Kept { held: 0, used: 0 }, Busy::Resting)
        }
        Place::Inside(opened, kept, busy) => match busy {
            Busy::Resting => resting_after(job, set, o, attrs, opened, kept, patterns),
            Busy::Reading(first, count, joined) => reading_after(
                job,
                set,
                o,
                early,
                Stream {
                    opened,
                    kept,
                    first,
                    count,
                    joined,
                },
                work,
                motifs,
                patterns,
            ),
            Busy::Drawing(_, picture) => {
                define_open(patterns, o.tag, picture);
                Place::Inside(
                    opened,
                    kept,
                    drawn_on(job, set.high, o, attrs, page, picture),
                )
            }
        },
    }
}
