// The codes of documents 01 and 02 by their names, which are those of include/dieuvakhop.h.
ghost use Rattle.std.specs.Prelude.{◌≡◌};
ghost use Rattle.refusal.specs.Codes.{number_of};

// The rule that is broken. A job that passes breaks none.
#[derive(Clone, Copy, Debug, PartialEq, Eq)]
pub enum Code {
    TooLong,
    Header,
    Ascii,
    Class,
    Cut,
    NoItem,
    Seventeenth,
    LongArray,
    NoOperator,
    Order,
    NoAttribute,
    Twice,
    Missing,
    Clash,
    Type,
    Range,
    Source,
    Data,
    NoRoom,
    NotHeld,
    Deep,
    Saved,
    Cursor,
    Colour,
    TooMany,
    NotEnded,
    ListFull,
    WorkShort,
    Ring,
    PatternsFull,
    NoPattern,
}

impl Code {
    // The number that documents, verdicts and C know it by.
    pub fn number(self) -> u32
        ensures { result ≡ number_of self }
    {
        match self {
            Code::TooLong => 1,
            Code::Header => 2,
            Code::Ascii => 3,
            Code::Class => 4,
            Code::Cut => 5,
            Code::NoItem => 6,
            Code::Seventeenth => 7,
            Code::LongArray => 8,
            Code::NoOperator => 9,
            Code::Order => 10,
            Code::NoAttribute => 11,
            Code::Twice => 12,
            Code::Missing => 13,
            Code::Clash => 14,
            Code::Type => 15,
            Code::Range => 16,
            Code::Source => 17,
            Code::Data => 18,
            Code::NoRoom => 19,
            Code::NotHeld => 21,
            Code::Deep => 22,
            Code::Saved => 23,
            Code::Cursor => 24,
            Code::Colour => 25,
            Code::TooMany => 26,
            Code::NotEnded => 27,
            Code::ListFull => 28,
            Code::WorkShort => 29,
            Code::Ring => 32,
            Code::PatternsFull => 33,
            Code::NoPattern => 34,
        }
    }
}
