// What is open at the end, code 27.

// There is no session; it ends in one, with its data source open, and so on; an item waits for its operator; a motif ends with states saved.
#[derive(Clone, Copy)]
pub enum End {
    NoSession,
    InSession,
    SourceOpen,
    InStream,
    InPage,
    InImage,
    Waits,
    StatesSaved,
    InPattern,
}

impl End {
    // The cause and the cure.
    pub(crate) fn sentences(self) -> (&'static str, &'static str) {
        match self {
            End::NoSession => (
                "ends with no session",
                "put a session behind the header, from BeginSession to EndSession",
            ),
            End::InSession => ("ends in a session", "put an EndSession at the end"),
            End::SourceOpen => (
                "ends in a session with the data source open",
                "put a CloseDataSource and an EndSession at the end",
            ),
            End::InStream => (
                "ends in the definition of a motif",
                "put an EndStream at the end, then what ends the session",
            ),
            End::InPage => (
                "ends in a page",
                "put an EndPage at the end, then what ends the session",
            ),
            End::InImage => (
                "ends in an image, with %w of %h read",
                "send the other rows by ReadImage, then an EndImage and what must follow",
            ),
            End::Waits => (
                "ends with a value or attributes that no operator follows",
                "put the operator behind them, or take them out",
            ),
            End::StatesSaved => ("ends with %s saved", "put as many PopGS at the end"),
            End::InPattern => (
                "ends in a pattern, with %w of %h read",
                "send the other rows by ReadRastPattern, then an EndRastPattern and what must follow",
            ),
        }
    }
}
