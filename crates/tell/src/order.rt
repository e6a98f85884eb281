// Why an operator is out of order, code 10.

// What is missing before it, or where it stands and may not.
#[derive(Clone, Copy)]
pub enum Order {
    NothingSaved,
    StillSaved,
    StillOpen,
    RowsMissing,
    NoPage,
    NoSession,
    InPage,
    InImage,
    InStream,
    OpenTwice,
    CloseTwice,
    NoImage,
    NoStream,
    InMotif,
    InSession,
    PatternRowsMissing,
    InPattern,
    NoPattern,
    PatternInMotif,
    NotOfImage,
    NotOfPattern,
}

impl Order {
    // The cause and the cure.
    pub(crate) fn sentences(self) -> (&'static str, &'static str) {
        match self {
            Order::NothingSaved => (
                "out of order: PopGS with nothing saved",
                "take it out, or put a PushGS before it",
            ),
            Order::StillSaved => (
                "out of order: EndPage with %s saved",
                "put as many PopGS before it",
            ),
            Order::StillOpen => (
                "out of order: EndSession while the data source is open",
                "put a CloseDataSource before it",
            ),
            Order::RowsMissing => (
                "out of order: EndImage after %w of %h",
                "send the other rows by ReadImage before it",
            ),
            Order::NoPage => (
                "out of order: %o outside a page",
                "put a BeginPage before it",
            ),
            Order::NoSession => (
                "out of order: %o outside a session",
                "put a BeginSession before it",
            ),
            Order::InPage => ("out of order: %o in a page", "put an EndPage before it"),
            Order::InImage => (
                "out of order: %o in an image",
                "put an EndImage before it, once all rows are read",
            ),
            Order::InStream => (
                "out of order: %o in the definition of a motif",
                "put an EndStream before it, or the operator into the motif's own bytes",
            ),
            Order::OpenTwice => (
                "out of order: OpenDataSource while the source is open",
                "take it out",
            ),
            Order::CloseTwice => (
                "out of order: CloseDataSource while the source is closed",
                "take it out",
            ),
            Order::NoImage => (
                "out of order: %o with no image begun",
                "put a BeginImage before it",
            ),
            Order::NoStream => (
                "out of order: %o with no motif begun",
                "put a BeginStream before it",
            ),
            Order::InMotif => (
                "out of order: %o in a motif",
                "take it out: a motif has operators of a page only",
            ),
            Order::InSession => (
                "out of order: BeginSession in a session",
                "put an EndSession before it",
            ),
            Order::PatternRowsMissing => (
                "out of order: EndRastPattern after %w of %h",
                "send the other rows by ReadRastPattern before it",
            ),
            Order::InPattern => (
                "out of order: %o in a pattern",
                "put an EndRastPattern before it, once all rows are read",
            ),
            Order::NoPattern => (
                "out of order: %o with no pattern begun",
                "put a BeginRastPattern before it",
            ),
            Order::PatternInMotif => (
                "out of order: %o in a motif",
                "take it out: define the pattern in the page, before the motif is called",
            ),
            Order::NotOfImage => (
                "out of order: %o in an image",
                "send rows by ReadImage, and end the image by EndImage",
            ),
            Order::NotOfPattern => (
                "out of order: %o in a pattern",
                "send rows by ReadRastPattern, and end the pattern by EndRastPattern",
            ),
        }
    }
}
