// Which operator may come where.
ghost use Rattle.std.specs.Prelude.{◌≡◌, eqb};
ghost use Rattle.scope.specs.Choice.{pick};
ghost use Rattle.scope.specs.Order.{may_come, drawn, in_session, in_stream, in_page};
ghost use Rattle.order.specs.Views.{phase_as};

use due::Image;
use names::operators::{
    BEGIN_IMAGE, BEGIN_PAGE, BEGIN_RAST_PATTERN, BEGIN_SESSION, BEGIN_STREAM, CLOSE_DATA_SOURCE,
    COMMENT, END_IMAGE, END_PAGE, END_RAST_PATTERN, END_SESSION, END_STREAM, EXEC_STREAM,
    OPEN_DATA_SOURCE, POP_GS, PUSH_GS, READ_IMAGE, READ_RAST_PATTERN, READ_STREAM,
    SET_BRUSH_SOURCE, SET_DEFAULT_GS,
};

// Where an operator stands; in a page and in a motif with so many states saved.
#[derive(Clone, Copy)]
pub enum Phase {
    BetweenSessions,
    InSession,
    InStream,
    InPage(usize),
    InMotif(usize),
    InImage(Image),
    InPattern(Image),
}

// In a page and in a motif.
fn is_drawn(saved: usize, tag: u8) -> bool
    ensures { result ≡ drawn saved tag }
{
    if tag == POP_GS {
        return 1 <= saved;
    }
    if tag == COMMENT {
        return true;
    }
    if tag == SET_DEFAULT_GS {
        return true;
    }
    if tag == EXEC_STREAM {
        return true;
    }
    if tag == PUSH_GS {
        return true;
    }
    if tag < SET_BRUSH_SOURCE {
        return false;
    }
    tag <= BEGIN_IMAGE
}

fn in_session(opened: bool, tag: u8) -> bool
    ensures { result ≡ may_come in_session opened tag }
{
    if tag == COMMENT {
        return true;
    }
    if tag == BEGIN_STREAM {
        return true;
    }
    if tag == BEGIN_PAGE {
        return true;
    }
    if opened {
        return tag == CLOSE_DATA_SOURCE;
    }
    if tag == OPEN_DATA_SOURCE {
        return true;
    }
    tag == END_SESSION
}

fn in_stream(opened: bool, tag: u8) -> bool
    ensures { result ≡ may_come in_stream opened tag }
{
    if tag == READ_STREAM {
        return true;
    }
    tag == END_STREAM
}

fn in_page(saved: usize, opened: bool, tag: u8) -> bool
    ensures { result ≡ may_come (in_page saved) opened tag }
{
    if tag == END_PAGE {
        return saved == 0;
    }
    if tag == BEGIN_RAST_PATTERN {
        return true;
    }
    is_drawn(saved, tag)
}

// In an image or a pattern: its operator that reads rows; the one that ends it when all are read.
fn in_rows(image: Image, end: u8, read: u8, tag: u8) -> bool
    ensures { result ≡ pick (eqb tag end) (eqb image.rows image.height) (eqb tag read) }
{
    let rows = image.rows;
    let height = image.height as u32;
    if tag == end {
        return rows == height;
    }
    tag == read
}

// Whether an operator of the table may come, where the source is open or not.
pub fn may_come(phase: Phase, opened: bool, tag: u8) -> bool
    ensures { result ≡ may_come (phase_as phase) opened tag }
{
    match phase {
        Phase::BetweenSessions => tag == BEGIN_SESSION,
        Phase::InSession => in_session(opened, tag),
        Phase::InStream => in_stream(opened, tag),
        Phase::InPage(saved) => in_page(saved, opened, tag),
        Phase::InMotif(saved) => is_drawn(saved, tag),
        Phase::InImage(image) => in_rows(image, END_IMAGE, READ_IMAGE, tag),
        Phase::InPattern(image) => in_rows(image, END_RAST_PATTERN, READ_RAST_PATTERN, tag),
    }
}
