// An image from BeginImage to EndImage, a pattern from BeginRastPattern to EndRastPattern.
ghost use Rattle.std.specs.Prelude.{◌≡◌, ◌+◌, ◌≤◌, true};
ghost use Rattle.items.specs.Rows.{rows_of, Sized};
ghost use Rattle.scope.specs.Motif.{hatch_of, begun, with_rows, read_on};
ghost use Rattle.scope.specs.Order.{rows_fit};
ghost use Rattle.due.specs.Views.{image_as};
ghost use Rattle.order.specs.Pictures.{hatch_as, hatch_in, picture_as, picture_for, image_in};

use due::{Image, reads_rows};
use names::attributes::{
    BLOCK_HEIGHT, COLOR_DEPTH, PATTERN_DEFINE_ID, PATTERN_PERSISTENCE, SOURCE_HEIGHT, SOURCE_WIDTH,
};
use names::operators::{BEGIN_IMAGE, BEGIN_RAST_PATTERN, END_IMAGE, END_RAST_PATTERN};

// What a session's pattern has more, as one number, than a page's.
const SESSIONS: u32 = 65_536;

// A pattern that is defined: for the session or for the page, and its number.
#[derive(Clone, Copy)]
pub struct Hatch {
    pub session: bool,
    pub number: u16,
}

// An image that is open, a pattern that is being defined, as one number, or none.
#[derive(Clone, Copy)]
pub enum Picture {
    Nothing,
    Being(Image),
    Hatching(Image, u32),
}

// PatternPersistence 2 is for the session, 1 for the page.
pub fn hatch_of(s: &[u8], high: bool, attrs: &[usize; 80], n: usize) -> Hatch
    ensures { Sized attrs.now n → hatch_as result ≡ hatch_of high s.now (rows_of attrs.now n) }
{
    let persistence = attributes::value_in(s, high, attrs, n, PATTERN_PERSISTENCE);
    let number = attributes::value_in(s, high, attrs, n, PATTERN_DEFINE_ID) as u16;
    Hatch {
        session: persistence == 2,
        number,
    }
}

// A pattern as one number: its own, and 65,536 more if it is for the session. So an open image and an open pattern are kept alike, and a place is copied by whole
// words.
fn packed(hatch: Hatch) -> u32
    ensures { hatch_in result ≡ hatch_as hatch }
{
    let number = hatch.number as u32;
    if hatch.session {
        return number + SESSIONS;
    }
    number
}

// The pattern in a number.
pub fn unpacked(code: u32) -> Hatch
    ensures { hatch_as result ≡ hatch_in code }
{
    let number = (code % SESSIONS) as u16;
    Hatch {
        session: SESSIONS <= code,
        number,
    }
}

// BeginImage opens an image, BeginRastPattern a pattern, without rows.
fn begin(s: &[u8], high: bool, attrs: &[usize; 80], n: usize) -> Image
    ensures { Sized attrs.now n → image_as result ≡ begun high s.now (rows_of attrs.now n) }
{
    let width = attributes::value_in(s, high, attrs, n, SOURCE_WIDTH) as u16;
    let depth = attributes::value_in(s, high, attrs, n, COLOR_DEPTH) as u16;
    let height = attributes::value_in(s, high, attrs, n, SOURCE_HEIGHT) as u16;
    Image {
        width,
        depth,
        height,
        rows: 0,
    }
}

// So many rows read and more, if that is not over the most.
fn rows_after(before: u32, more: u32, most: u16) -> u32
    ensures { before + more ≤ most → result ≡ before + more }
{
    let limit = most as u32;
    if limit < before {
        return before;
    }
    if limit - before < more {
        return before;
    }
    before + more
}

// So many rows more, no more than it has.
fn with_rows(more: u32, image: Image) -> Image
    ensures { image.rows + more ≤ image.height → image_as result ≡ with_rows more (image_as image) }
{
    Image {
        width: image.width,
        depth: image.depth,
        height: image.height,
        rows: rows_after(image.rows, more, image.height),
    }
}

// ReadImage and ReadRastPattern read rows of it.
fn read_on(more: u32, picture: Picture) -> Picture
    ensures { (image_in (picture_as picture)).rows + more ≤ (image_in (picture_as picture)).height → picture_as result ≡ read_on more (picture_as picture) }
{
    match picture {
        Picture::Nothing => Picture::Nothing,
        Picture::Being(image) => Picture::Being(with_rows(more, image)),
        Picture::Hatching(image, hatch) => Picture::Hatching(with_rows(more, image), hatch),
    }
}

// The image or pattern after an operator, whose rows fit where it reads some.
pub fn picture_after(
    s: &[u8],
    high: bool,
    tag: u8,
    attrs: &[usize; 80],
    n: usize,
    picture: Picture,
) -> Picture
    ensures { Sized attrs.now n → rows_fit high s.now (image_in (picture_as picture)) tag (rows_of attrs.now n) ≡ true → picture_as result ≡ picture_for high s.now tag (rows_of attrs.now n) (picture_as picture) }
{
    if tag == BEGIN_IMAGE {
        return Picture::Being(begin(s, high, attrs, n));
    }
    if tag == BEGIN_RAST_PATTERN {
        let hatch = packed(hatch_of(s, high, attrs, n));
        return Picture::Hatching(begin(s, high, attrs, n), hatch);
    }
    if reads_rows(tag) {
        let more = attributes::value_in(s, high, attrs, n, BLOCK_HEIGHT);
        return read_on(more, picture);
    }
    if tag == END_IMAGE {
        return Picture::Nothing;
    }
    if tag == END_RAST_PATTERN {
        return Picture::Nothing;
    }
    picture
}
