// An operator's records in the list: one for each of its attributes, then its own.
ghost use Rattle.std.specs.Prelude.{◌≡◌, true, [], ◌∷◌, suc, ◌+◌, ◌*◌, ◌/◌, ◌%◌, ◌≤◌, ◌<◌, leb, length};
ghost use Rattle.scope.specs.Verdict.{attribute_record, attribute_records};
ghost use Rattle.items.specs.Rows.{Sized, row_at, rows_of};
ghost use Rattle.buffer.specs.Over.{over, joined_at};
ghost use Rattle.listed.specs.Listed.{BytesIn, low_of, lows, room_for, sixteen, records_for};

use buffer::copy;

// A record: four bytes, then three numbers of four bytes, low byte first.
#[tactic(auto, unfolding(crate::specs::Listed::sixteen, scope::specs::Verdict::four))]
fn row(a: u8, b: u8, c: u8, d: u8, x: usize, y: usize, z: usize) -> [u8; 16]
    ensures { result ≡ sixteen a b c d x y z }
{
    let [x0, x1, x2, x3, ..] = x.to_le_bytes();
    let [y0, y1, y2, y3, ..] = y.to_le_bytes();
    let [z0, z1, z2, z3, ..] = z.to_le_bytes();
    [a, b, c, d, x0, x1, x2, x3, y0, y1, y2, y3, z0, z1, z2, z3]
}

// The record of attribute i.
fn attribute_row(attrs: &[usize; 80], i: usize) -> [u8; 16]
    requires { i < 16 }
    ensures { result ≡ attribute_record (low_of (row_at attrs.now i)) }
{
    let number = attrs[i * 5];
    let tag = attrs[i * 5 + 1];
    let at = attrs[i * 5 + 2];
    let count = attrs[i * 5 + 3];
    let first = attrs[i * 5 + 4];
    row(
        1,
        (number % 256) as u8,
        (tag % 256) as u8,
        0,
        at,
        count,
        first,
    )
}

// The record of an operator with n attributes.
fn operator_row(tag: u8, n: usize, at: usize, size: usize, first: usize) -> [u8; 16]
    requires { n ≤ 16 }
    ensures { result ≡ sixteen 2 tag (n % 256) (n / 256) at size first }
{
    row(2, tag, (n % 256) as u8, (n / 256) as u8, at, size, first)
}

// A record at its place in the list.
fn put(list: &mut [u8], place: usize, bytes: [u8; 16])
    requires { place + 16 ≤ length list.old }
    ensures { list.new ≡ over list.old place bytes }
{
    copy(&bytes, &mut list[place..]);
}

// A list of so many bytes has room for n attributes' records and their operator's after so many others.
fn has_room(bytes: usize, records: usize, n: usize) -> bool
    ensures value { result ≡ room_for records n bytes }
    ensures room { result ≡ true → (n ≤ 16) × ((records + suc n) * 16 ≤ bytes) }
{
    n <= 16 && records <= bytes / 16 && n < bytes / 16 - records
}

// The records of n attributes, after so many others.
fn list_attributes(list: &mut [u8], records: usize, attrs: &[usize; 80], n: usize)
    requires n_bound { n ≤ 16 }
    requires n_in_bounds { (records + n) * 16 ≤ length list.old }
    ensures { list.new ≡ over list.old (records * 16) (attribute_records (lows (rows_of attrs.now n))) }
{
    for i in 0..n {
        put(list, (records + i) * 16, attribute_row(attrs, i));
    }
}

// The records of n attributes and of their operator, after so many others, and the answer true.
// Without room for all of them the list stays as it is, and the answer is false.
// The operator has its tag at `at`, and `size` bytes of data from `first` on.
pub fn list_operator(
    list: &mut [u8],
    records: usize,
    attrs: &[usize; 80],
    n: usize,
    tag: u8,
    at: usize,
    size: usize,
    first: usize,
) -> bool
    ensures list_len_unchanged { length list.new ≡ length list.old }
    ensures value { Sized attrs.now n → BytesIn (rows_of attrs.now n)
        → (result ≡ leb ((records + suc n) * 16) (length list.old))
        × (list.new ≡ joined_at result list.old (records * 16) (records_for tag at size first (rows_of attrs.now n))) }
    ensures value_2 { result ≡ room_for records n (length list.old) }
    ensures list_after { list.new ≡ joined_at result list.old (records * 16) (records_for tag at size first (lows (rows_of attrs.now n))) }
{
    if !has_room(list.len(), records, n) {
        return false;
    }
    list_attributes(list, records, attrs, n);
    let bytes = operator_row(tag, n, at, size, first);
    put(list, (records + n) * 16, bytes);
    true
}

// The record of an operator with neither attributes nor data, after so many others, and the answer true.
// Without room for it the list stays as it is, and the answer is false.
pub fn list_alone(list: &mut [u8], records: usize, tag: u8, at: usize) -> bool
    ensures value { result ≡ leb ((records + 1) * 16) (length list.old) }
    ensures list_after { list.new ≡ joined_at result list.old (records * 16) (records_for tag at 0 0 []) }
{
    if list.len() / 16 <= records {
        return false;
    }
    let bytes = operator_row(tag, 0, at, 0, 0);
    put(list, records * 16, bytes);
    true
}

// The records of an operator with one attribute and no data, after so many others, and the answer true.
// Without room for both the list stays as it is, and the answer is false.
// The attribute has a number, its value's tag at `at`, and `count` numbers from `first` on; the operator has its tag at `op`.
pub fn list_one(
    list: &mut [u8],
    records: usize,
    number: u8,
    value: u8,
    at: usize,
    count: usize,
    first: usize,
    tag: u8,
    op: usize,
) -> bool
    ensures value { result ≡ leb ((records + 2) * 16) (length list.old) }
    ensures list_after { list.new ≡ joined_at result list.old (records * 16) (records_for tag op 0 0 (record { number = number; tag = value; at = at; count = count; first = first } ∷ [])) }
{
    if !has_room(list.len(), records, 1) {
        return false;
    }
    let attribute = row(1, number, value, 0, at, count, first);
    put(list, records * 16, attribute);
    let operator = operator_row(tag, 1, op, 0, 0);
    put(list, (records + 1) * 16, operator);
    true
}
