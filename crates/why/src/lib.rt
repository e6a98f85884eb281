// Which sentence says why: the own one of the code, or one that says more.
#![tactic(auto)]

use hatched::{Until, hatched};
use names::operators::{
    BEGIN_RAST_PATTERN, BEGIN_SESSION, CLOSE_DATA_SOURCE, END_IMAGE, END_PAGE, END_RAST_PATTERN,
    END_SESSION, END_STREAM, OPEN_DATA_SOURCE, POP_GS, READ_IMAGE, READ_RAST_PATTERN, READ_STREAM,
    SET_DEFAULT_GS,
};
use refusal::Code;
use tell::{Cause, Cure, End, Order};
use trail::{Phase, Walk};

// Of 10 in a session.
fn in_session(tag: u8) -> Order {
    match tag {
        BEGIN_SESSION => Order::InSession,
        END_SESSION => Order::StillOpen,
        OPEN_DATA_SOURCE => Order::OpenTwice,
        CLOSE_DATA_SOURCE => Order::CloseTwice,
        READ_STREAM | END_STREAM => Order::NoStream,
        _ => Order::NoPage,
    }
}

// Of 10 in an image.
fn in_image(tag: u8) -> Order {
    match tag {
        END_IMAGE => Order::RowsMissing,
        READ_RAST_PATTERN | END_RAST_PATTERN => Order::NotOfImage,
        _ => Order::InImage,
    }
}

// Of 10 in a pattern.
fn in_pattern(tag: u8) -> Order {
    match tag {
        READ_IMAGE | END_IMAGE => Order::NotOfPattern,
        END_RAST_PATTERN => Order::PatternRowsMissing,
        _ => Order::InPattern,
    }
}

// Of 10 in a page, or in a motif.
fn in_page(tag: u8, motif: bool) -> Order {
    match tag {
        POP_GS => Order::NothingSaved,
        READ_IMAGE | END_IMAGE => Order::NoImage,
        BEGIN_RAST_PATTERN.. if motif => Order::PatternInMotif,
        BEGIN_RAST_PATTERN.. => Order::NoPattern,
        _ if motif => Order::InMotif,
        END_PAGE => Order::StillSaved,
        _ => Order::InPage,
    }
}

// Of 10.
fn out_of_order(walk: &Walk) -> Order {
    let tag = walk.tag.unwrap_or(0);
    match walk.stand.phase {
        Phase::Between => Order::NoSession,
        Phase::Session => in_session(tag),
        Phase::Stream => Order::InStream,
        Phase::Page => in_page(tag, walk.stand.motif),
        Phase::Image => in_image(tag),
        Phase::Pattern => in_pattern(tag),
    }
}

// Of 27: what is open at the end.
fn left_open(walk: &Walk) -> End {
    if white::after_white(walk.s, walk.start) < walk.s.len() {
        return End::Waits;
    }
    match walk.stand.phase {
        Phase::Between => End::NoSession,
        Phase::Session if walk.stand.opened => End::SourceOpen,
        Phase::Session => End::InSession,
        Phase::Stream => End::InStream,
        Phase::Page if walk.stand.motif => End::StatesSaved,
        Phase::Page => End::InPage,
        Phase::Image => End::InImage,
        Phase::Pattern => End::InPattern,
    }
}

// The cause of a code, once its operator is known. Of 4: a motif has the job's class.
pub fn cause_of(code: Code, walk: &Walk) -> Cause {
    match code {
        Code::Class if walk.stand.motif => Cause::OtherClass,
        Code::NoOperator if walk.tag == Some(SET_DEFAULT_GS) => Cause::OperatorOfTwo,
        Code::Order => Cause::Order(out_of_order(walk)),
        Code::Source if walk.tag == Some(READ_STREAM) => Cause::ReadClosed,
        Code::Data if data::is_told(walk) => Cause::OtherLength,
        Code::Data => Cause::NoData,
        Code::NotEnded => Cause::End(left_open(walk)),
        _ => Cause::Own(code),
    }
}

// The cause of 34: why the pattern of a number is not defined at a place of the job.
pub fn undefined(job: &[u8], at: usize, number: u32) -> Cause {
    match hatched(job, at, number) {
        Until::PageBefore => Cause::EndedWithPage,
        Until::EarlierPage => Cause::OfEarlierPage,
        Until::EarlierSession => Cause::OfEarlierSession,
        Until::Now | Until::Never => Cause::Own(Code::NoPattern),
    }
}

// The cure of 9: what may come.
pub fn may_come(walk: &Walk) -> Cure {
    match walk.stand.phase {
        Phase::Page if walk.stand.motif => Cure::MayComeInMotif,
        phase => Cure::MayCome(phase),
    }
}
