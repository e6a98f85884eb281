// How much data an operator reads.
ghost use Rattle.std.specs.Prelude.{◌≡◌, ◌+◌, ◌*◌, ◌≤◌};
ghost use Rattle.items.specs.Rows.{rows_of, Sized};
ghost use Rattle.scope.specs.Attributes.{has};
ghost use Rattle.scope.specs.Data.{bits_of, row_of, pad_of, reads_rows, block_due, point_bytes, due_of};
ghost use Rattle.scope.specs.Order.{length_fits, rows_fit};
ghost use Rattle.due.specs.Views.{due_as, image_as, points_due};

use names::attributes::{
    BLOCK_BYTE_LENGTH, BLOCK_HEIGHT, NUMBER_OF_POINTS, PAD_BYTES_MULTIPLE, POINT_TYPE, START_LINE,
    STREAM_DATA_LENGTH,
};
use names::operators::{LINE_PATH, LINE_REL_PATH, READ_IMAGE, READ_RAST_PATTERN, READ_STREAM};

// An image that is being read, or a pattern.
#[derive(Clone, Copy)]
pub struct Image {
    pub width: u16,
    pub depth: u16,
    pub height: u16,
    pub rows: u32,
}

// The bits of a row.
fn row_bits(width: u16, depth: u16) -> usize
    ensures value { result ≡ width * bits_of depth }
    ensures upper_bound { result ≤ 524_280 }
{
    let wide = width as usize;
    match depth {
        0 => wide,
        1 => wide * 4,
        _ => wide * 8,
    }
}

// The bytes of a row: rounded up to bytes, then to a multiple of so many bytes.
pub fn row_of(width: u16, depth: u16, pad: u16) -> usize
    ensures value { result ≡ row_of width depth pad }
    ensures upper_bound { result ≤ 131_070 }
{
    let by = pad as usize;
    if by == 0 {
        return 0;
    }
    ((row_bits(width, depth) + 7) / 8 + (by - 1)) / by * by
}

// So many: PadBytesMultiple, or 4 where it is missing.
pub fn pad_of(s: &[u8], high: bool, attrs: &[usize; 80], n: usize) -> u16
    ensures { Sized attrs.now n → result ≡ pad_of high s.now (rows_of attrs.now n) }
{
    let pad = attributes::value_in(s, high, attrs, n, PAD_BYTES_MULTIPLE);
    if pad == 0 { 4 } else { pad as u16 }
}

// ReadImage and ReadRastPattern read rows.
pub fn reads_rows(tag: u8) -> bool
    ensures { result ≡ reads_rows tag }
{
    matches!(tag, READ_IMAGE | READ_RAST_PATTERN)
}

// Their data: BlockHeight rows.
fn block_due(s: &[u8], high: bool, image: Image, attrs: &[usize; 80], n: usize) -> usize
    ensures { Sized attrs.now n → result ≡ block_due high s.now (image_as image) (rows_of attrs.now n) }
{
    let rows = attributes::value_in(s, high, attrs, n, BLOCK_HEIGHT) as usize;
    let pad = pad_of(s, high, attrs, n);
    rows * row_of(image.width, image.depth, pad)
}

// Of points: 2n bytes for PointType 0 or 1, 4n for 2 or 3.
fn point_bytes(kind: u32, n: u32) -> usize
    ensures { result ≡ point_bytes kind n }
{
    let many = n as usize;
    if kind <= 1 { 2 * many } else { 4 * many }
}

// Of a line: its points, if it has NumberOfPoints.
fn points_due(s: &[u8], high: bool, attrs: &[usize; 80], n: usize) -> Option<usize>
    ensures { Sized attrs.now n → due_as result ≡ points_due high s.now (rows_of attrs.now n) }
{
    if !attributes::has(attrs, n, NUMBER_OF_POINTS) {
        return None;
    }
    let kind = attributes::value_in(s, high, attrs, n, POINT_TYPE);
    let many = attributes::value_in(s, high, attrs, n, NUMBER_OF_POINTS);
    Some(point_bytes(kind, many))
}

// How many bytes of data an operator reads, of which the attributes are taken; none if it reads no data.
pub fn due_of(
    s: &[u8],
    high: bool,
    image: Image,
    tag: u8,
    attrs: &[usize; 80],
    n: usize,
) -> Option<usize>
    ensures { Sized attrs.now n → due_as result ≡ due_of high s.now (image_as image) tag (rows_of attrs.now n) }
{
    match tag {
        READ_STREAM => Some(attributes::value_in(s, high, attrs, n, STREAM_DATA_LENGTH) as usize),
        READ_IMAGE | READ_RAST_PATTERN => Some(block_due(s, high, image, attrs, n)),
        LINE_PATH | LINE_REL_PATH => points_due(s, high, attrs, n),
        _ => None,
    }
}

// BlockByteLength, if it is there, is the length due.
fn length_fits(s: &[u8], high: bool, image: Image, attrs: &[usize; 80], n: usize) -> bool
    ensures { Sized attrs.now n → result ≡ length_fits high s.now (image_as image) (rows_of attrs.now n) }
{
    !attributes::has(attrs, n, BLOCK_BYTE_LENGTH)
        || attributes::long_in(s, high, attrs, n, BLOCK_BYTE_LENGTH) as usize
            == block_due(s, high, image, attrs, n)
}

// StartLine is the number of rows read so far, rows do not exceed SourceHeight, and BlockByteLength is right.
pub fn rows_fit(s: &[u8], high: bool, image: Image, tag: u8, attrs: &[usize; 80], n: usize) -> bool
    ensures { Sized attrs.now n → result ≡ rows_fit high s.now (image_as image) tag (rows_of attrs.now n) }
{
    if !reads_rows(tag) {
        return true;
    }
    let start = attributes::value_in(s, high, attrs, n, START_LINE);
    let block = attributes::value_in(s, high, attrs, n, BLOCK_HEIGHT);
    start == image.rows
        && image.rows as usize + block as usize <= image.height as usize
        && length_fits(s, high, image, attrs, n)
}
