// The codes by their numbers, and the sentences that are a code's own.
use refusal::Code;

// The code of a number; none if it is no code's, like that of a job that passes.
pub fn code_of(number: u32) -> Option<Code> {
    Some(match number {
        1 => Code::TooLong,
        2 => Code::Header,
        3 => Code::Ascii,
        4 => Code::Class,
        5 => Code::Cut,
        6 => Code::NoItem,
        7 => Code::Seventeenth,
        8 => Code::LongArray,
        9 => Code::NoOperator,
        10 => Code::Order,
        11 => Code::NoAttribute,
        12 => Code::Twice,
        13 => Code::Missing,
        14 => Code::Clash,
        15 => Code::Type,
        16 => Code::Range,
        17 => Code::Source,
        18 => Code::Data,
        19 => Code::NoRoom,
        21 => Code::NotHeld,
        22 => Code::Deep,
        23 => Code::Saved,
        24 => Code::Cursor,
        25 => Code::Colour,
        26 => Code::TooMany,
        27 => Code::NotEnded,
        28 => Code::ListFull,
        29 => Code::WorkShort,
        32 => Code::Ring,
        33 => Code::PatternsFull,
        34 => Code::NoPattern,
        _ => return None,
    })
}

// The cause and the cure.
pub(crate) fn of_code(code: Code) -> (&'static str, &'static str) {
    match code {
        Code::TooLong => (
            "longer than 61,440 bytes",
            "make the job shorter, or split it in two",
        ),
        Code::Header => (
            "header malformed",
            "begin the file with `) HP-PCL XL;1;1` and a line feed, nothing before it",
        ),
        Code::Ascii => (
            "written in the ASCII form",
            "save the job in the binary form",
        ),
        Code::Class => (
            "of another class than PCL XL 1;1 and 2;1",
            "save the job as PCL XL 1;1 or 2;1",
        ),
        Code::Cut => (
            "ends inside an item",
            "the end is cut off: send the whole file again",
        ),
        Code::NoItem => (
            "no item that may come here: %b",
            "take this byte out, or mend the item before it",
        ),
        Code::Seventeenth => (
            "%a is a 17th attribute of %o",
            "give one operator at most 16 attributes",
        ),
        Code::LongArray => ("over 1,024 elements in an %t", "make the array shorter"),
        Code::NoOperator => ("%o is no operator of the arm", "take it out"),
        Code::Order => ("out of order: %o", "move it to where it may stand"),
        Code::NoAttribute => ("%a is no attribute of %o", "take it out: %k"),
        Code::Twice => ("%a comes twice for %o", "give it once"),
        Code::Missing => ("attribute missing before %o", "%c"),
        Code::Clash => ("attributes or rows that do not go together before %o", "%c"),
        Code::Type => ("%a does not take %t in %o", "%r"),
        Code::Range => ("%a %v is out of range in %o", "%r"),
        Code::Source => (
            "data source not open at %o",
            "put an OpenDataSource before the BeginPage",
        ),
        Code::Data => (
            "data absent or of another length after %o",
            "put data of just the length asked for behind it",
        ),
        Code::NoRoom => (
            "no room for more motifs at %o",
            "define fewer or shorter motifs: 64, and 16,384 bytes in all, one that is being replaced counted too",
        ),
        Code::NotHeld => (
            "no motif of the name %u is held",
            "define it before the page, in this session",
        ),
        Code::Deep => (
            "calls over 32 deep at %o of %u",
            "let motifs call each other less deep",
        ),
        Code::Saved => (
            "over 24 saved states at %o",
            "put a PopGS before it, or leave it out",
        ),
        Code::Cursor => ("cursor not set before %o", "put a SetCursor before it"),
        Code::Colour => (
            "wrong colour space before %o",
            "put a SetColorSpace before it: RGB for RGBColor, gray for GrayLevel, images and patterns",
        ),
        Code::TooMany => (
            "over 1,000,000 operators performed at %o",
            "call motifs fewer times",
        ),
        Code::NotEnded => (
            "ends with something still open",
            "close the motif, image, pattern, page or session, or send the whole file again",
        ),
        Code::ListFull => ("list of records full at %o", "lend a longer list"),
        Code::WorkShort => (
            "work buffer too short",
            "lend a work buffer of 16,384 bytes",
        ),
        Code::Ring => (
            "a call of %u comes back to a motif that is running",
            "let one of these motifs not call the next",
        ),
        Code::PatternsFull => (
            "no place for pattern %n at %o: 32 are defined for the %l",
            "define one of their numbers again, or begin another %l before it",
        ),
        Code::NoPattern => (
            "pattern %n is not defined",
            "define it in this page, before it is selected",
        ),
    }
}
