// What to change.
use crate::causes::Cause;
use trail::Phase;

// The one that stands beside a cause; three for an operator of a motif that is called; for an operator that is not known, what may come in its place; for a motif that calls itself.
#[derive(Clone, Copy)]
pub enum Cure {
    Of(Cause),
    Saves,
    LacksCursor,
    LacksColour,
    MayCome(Phase),
    MayComeInMotif,
    Itself,
}

// What may come, outside the motifs that are called.
fn may_come(phase: Phase) -> &'static str {
    match phase {
        Phase::Between => "take it out: between sessions only BeginSession may come",
        Phase::Session => {
            "take it out: in a session, outside its pages, only Comment, OpenDataSource, CloseDataSource, BeginStream, BeginPage and EndSession may come"
        }
        Phase::Stream => {
            "take it out: in the definition of a motif only ReadStream and EndStream may come"
        }
        Phase::Page => {
            "take it out: in a page only Comment, EndPage, ExecStream, PushGS, PopGS, SetBrushSource, SetColorSpace, SetCursor, SetCursorRel, SetPenSource, SetPenWidth, CloseSubPath, NewPath, PaintPath, LinePath, LineRelPath, Rectangle, BeginImage and BeginRastPattern may come, and in class 2;1 SetDefaultGS"
        }
        Phase::Image => "take it out: in an image only ReadImage and EndImage may come",
        Phase::Pattern => {
            "take it out: in a pattern only ReadRastPattern and EndRastPattern may come"
        }
    }
}

impl Cure {
    pub(crate) fn sentence(self) -> &'static str {
        match self {
            Cure::Of(cause) => cause.sentences().1,
            Cure::Saves => "take it and its PopGS out of that motif",
            Cure::LacksCursor => "in that motif, put a SetCursor before it",
            Cure::LacksColour => {
                "in that motif, put a SetColorSpace before it: RGB for RGBColor, gray for GrayLevel and images"
            }
            Cure::MayCome(phase) => may_come(phase),
            Cure::MayComeInMotif => {
                "take it out: in a motif only Comment, ExecStream, PushGS, PopGS, SetBrushSource, SetColorSpace, SetCursor, SetCursorRel, SetPenSource, SetPenWidth, CloseSubPath, NewPath, PaintPath, LinePath, LineRelPath, Rectangle and BeginImage may come, and in class 2;1 SetDefaultGS"
            }
            Cure::Itself => "let the motif not call itself",
        }
    }
}
