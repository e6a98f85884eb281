// Why a job or a motif is refused: each cause with its sentence, and with what to change.
use crate::codes::of_code;
use crate::end::End;
use crate::kinds::Kind;
use crate::order::Order;
use refusal::Code;

// A code's own sentence, or one that says more where more is known.
#[derive(Clone, Copy)]
pub enum Cause {
    Own(Code),
    File(Kind),
    Order(Order),
    End(End),
    CarriageReturn,
    ReadClosed,
    NoData,
    OtherLength,
    AttributeMissing,
    Earlier,
    Later,
    LaterElsewhere,
    OtherClass,
    OperatorOfTwo,
    AttributeOfTwo,
    EndedWithPage,
    OfEarlierPage,
    OfEarlierSession,
}

impl Cause {
    // The cause and the cure.
    pub(crate) fn sentences(self) -> (&'static str, &'static str) {
        match self {
            Cause::Own(code) => of_code(code),
            Cause::File(kind) => kind.sentences(),
            Cause::Order(order) => order.sentences(),
            Cause::End(end) => end.sentences(),
            Cause::CarriageReturn => (
                "a carriage return in the header",
                "take byte %p out: the header ends by a line feed alone",
            ),
            Cause::ReadClosed => (
                "data source not open at ReadStream",
                "put an OpenDataSource before the BeginStream",
            ),
            Cause::NoData => (
                "no data behind %o, which asks for %x",
                "put 0xfa, the length in four bytes, and the data behind it",
            ),
            Cause::OtherLength => (
                "%o asks for %x of data, and the length behind it is %y",
                "make the two lengths the same",
            ),
            Cause::AttributeMissing => ("%m missing before %o", "%q"),
            Cause::Earlier => (
                "the motif %u was defined in an earlier session and ended with it",
                "define it again in this session, before the page",
            ),
            Cause::Later => (
                "the motif %u is defined only later",
                "define it before the page",
            ),
            Cause::LaterElsewhere => (
                "the motif %u is defined only later",
                "define it in this session too, before the page",
            ),
            Cause::OtherClass => (
                "of another class than the job",
                "give the motif's header the class of the job's own",
            ),
            Cause::OperatorOfTwo => (
                "%o is an operator of class 2;1, and this job is of class 1;1",
                "take it out, or save the job as PCL XL 2;1",
            ),
            Cause::AttributeOfTwo => (
                "%a is an attribute of class 2;1, and this job is of class 1;1",
                "take it out, or save the job as PCL XL 2;1",
            ),
            Cause::EndedWithPage => (
                "pattern %n was defined for the page before and ended with it",
                "define it again in this page, or in that one for the session, by PatternPersistence 2",
            ),
            Cause::OfEarlierPage => (
                "pattern %n was defined for an earlier page and ended with it",
                "define it again in this page, or in that one for the session, by PatternPersistence 2",
            ),
            Cause::OfEarlierSession => (
                "pattern %n was defined in an earlier session and is not known in this one",
                "define it again in this page, before it is selected",
            ),
        }
    }
}
