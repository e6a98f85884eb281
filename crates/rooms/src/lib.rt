// Room to lend to the checker, full of zeros. Each promise tells the length, so that a caller need not count it out.
#![tactic(auto)]

ghost use Rattle.std.specs.Prelude.{◌≡◌, length};

// A job: one byte more than the longest, so that a longer one is told.
pub fn job() -> [u8; 61441]
    ensures { 61441 ≡ length result }
{
    [0; 61441]
}

// The work buffer.
pub fn work() -> [u8; 16384]
    ensures { 16384 ≡ length result }
{
    [0; 16384]
}

// A list that the records of every job fit in: 16 bytes for each byte of the longest.
pub fn list() -> [u8; 983040]
    ensures { 983040 ≡ length result }
{
    [0; 983040]
}

// A job that may be longer than any: what vectors tries has room.
pub fn long_job() -> [u8; 131072]
    ensures { 131072 ≡ length result }
{
    [0; 131072]
}

// A buffer full of a byte that no record and no zeroed work buffer has throughout.
pub fn filled() -> [u8; 65536]
    ensures { 65536 ≡ length result }
{
    [238; 65536]
}
