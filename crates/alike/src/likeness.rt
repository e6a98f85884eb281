// How much two names are alike: capital and small letters count as the same.

// How many letters at the start are the same.
fn first_same(a: &[u8], b: &[u8]) -> usize {
    a.iter()
        .zip(b)
        .take_while(|(x, y)| x.eq_ignore_ascii_case(y))
        .count()
}

// How many letters at the end are the same.
fn last_same(a: &[u8], b: &[u8]) -> usize {
    a.iter()
        .rev()
        .zip(b.iter().rev())
        .take_while(|(x, y)| x.eq_ignore_ascii_case(y))
        .count()
}

// All but one of so many letters are the same at the start or the end.
fn but_one(first: usize, last: usize, n: usize) -> bool {
    n <= first || n - first - 1 <= last
}

// The names differ in capitals or in one letter, if at all.
pub fn are_alike(a: &[u8], b: &[u8]) -> bool {
    let first = first_same(a, b);
    let last = last_same(a, b);
    but_one(first, last, a.len()) && but_one(first, last, b.len())
}
