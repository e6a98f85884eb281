// The records of the list: of an operator's attributes, then of the operator itself.
ghost use Rattle.std.specs.Prelude.{◌≡◌};
ghost use Rattle.listing.specs.Records.{record_of, record_in, as_operator, as_attribute};

// An attribute: its number, its value's tag and that tag's place, how many numbers the value has and the place of the first.
#[derive(Clone, Copy)]
pub struct Attribute {
    pub number: u8,
    pub tag: u8,
    pub at: u32,
    pub count: u32,
    pub first: u32,
}

// An operator: its tag, how many attributes it has, its place, and where its data begins, of so many bytes.
#[derive(Clone, Copy)]
pub struct Operator {
    pub tag: u8,
    pub attributes: u8,
    pub at: u32,
    pub length: u32,
    pub first: u32,
}

#[derive(Clone, Copy)]
pub enum Record {
    Attribute(Attribute),
    Operator(Operator),
}

// What the sixteen bytes of a record say: four bytes, then three numbers of four bytes, low byte first.
fn read(bytes: &[u8; 16]) -> Option<Record>
    ensures { result ≡ record_of bytes.now }
{
    let [
        kind,
        a,
        b,
        _,
        x0,
        x1,
        x2,
        x3,
        y0,
        y1,
        y2,
        y3,
        z0,
        z1,
        z2,
        z3,
    ] = *bytes;
    let at = u32::from_le_bytes([x0, x1, x2, x3]);
    let count = u32::from_le_bytes([y0, y1, y2, y3]);
    let first = u32::from_le_bytes([z0, z1, z2, z3]);
    match kind {
        1 => Some(Record::Attribute(Attribute {
            number: a,
            tag: b,
            at,
            count,
            first,
        })),
        2 => Some(Record::Operator(Operator {
            tag: a,
            attributes: b,
            at,
            length: count,
            first,
        })),
        _ => None,
    }
}

// Record i of the list.
pub fn record_at(list: &[u8], i: usize) -> Option<Record>
    ensures { result ≡ record_in list.now i }
{
    let (records, _) = list.as_chunks::<16>();
    read(records.get(i)?)
}

// Record i, if it is an operator's.
pub fn operator_at(list: &[u8], i: usize) -> Option<Operator>
    ensures { result ≡ as_operator (record_in list.now i) }
{
    match record_at(list, i)? {
        Record::Operator(o) => Some(o),
        Record::Attribute(_) => None,
    }
}

// Record i, if it is an attribute's.
pub fn attribute_at(list: &[u8], i: usize) -> Option<Attribute>
    ensures { result ≡ as_attribute (record_in list.now i) }
{
    match record_at(list, i)? {
        Record::Attribute(a) => Some(a),
        Record::Operator(_) => None,
    }
}
