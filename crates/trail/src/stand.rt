// How matters stand: where the job is, and what is open.
ghost use Rattle.std.specs.Prelude.{◌≡◌};

// Between sessions, in a session, in a motif's definition, in a page, in an image, in a pattern.
#[derive(Clone, Copy, PartialEq, Eq)]
pub enum Phase {
    Between,
    Session,
    Stream,
    Page,
    Image,
    Pattern,
}

// Of an image or a pattern: width, depth, height, and the rows read.
#[derive(Clone, Copy)]
pub struct Rows {
    pub width: u16,
    pub depth: u16,
    pub height: u16,
    pub read: u32,
}

// Where the job or the motif is, whether the data source is open, the states saved, the rows of the image or the pattern, and whether it is a motif.
#[derive(Clone, Copy)]
pub struct Stand {
    pub phase: Phase,
    pub opened: bool,
    pub saved: u32,
    pub rows: Rows,
    pub motif: bool,
}

impl Stand {
    // At the beginning: nothing is open.
    pub(crate) fn first(phase: Phase, motif: bool) -> Stand
        ensures { (result.phase ≡ phase) × (result.motif ≡ motif) }
    {
        Stand {
            phase,
            opened: false,
            saved: 0,
            rows: Rows {
                width: 0,
                depth: 0,
                height: 0,
                read: 0,
            },
            motif,
        }
    }
}
