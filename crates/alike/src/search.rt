// The search through a job's list.
use crate::likeness::are_alike;
use listing::{Attribute, attribute_at, operator_at};
use names::attributes::STREAM_NAME;
use names::operators::{BEGIN_SESSION, BEGIN_STREAM};

// A motif of the name in this session, one in an earlier session, one of a like name in this session, by its StreamName, or none.
#[derive(Clone, Copy)]
pub enum Other {
    Here,
    Earlier,
    Like(Attribute),
    Nobody,
}

// The letters of a name, as they stand in the job.
fn letters(job: &[u8], name: Attribute) -> Option<&[u8]> {
    job.get(name.first as usize..)?.get(..name.count as usize)
}

// Record i is the name of a motif that is defined, since BeginStream stands behind it.
fn defined_at(list: &[u8], i: usize) -> Option<Attribute> {
    let name = attribute_at(list, i)?;
    let next = operator_at(list, i.checked_add(1)?)?;
    if name.number == STREAM_NAME && next.tag == BEGIN_STREAM {
        Some(name)
    } else {
        None
    }
}

// Record i is BeginSession.
fn is_session(list: &[u8], i: usize) -> bool {
    operator_at(list, i).is_some_and(|o| o.tag == BEGIN_SESSION)
}

// What record i makes of what was found before: a session that begins leaves no like name.
fn after(job: &[u8], list: &[u8], i: usize, name: &[u8], found: Other) -> Other {
    if is_session(list, i) {
        return begun(found);
    }
    let Some(other) = defined_at(list, i) else {
        return found;
    };
    let Some(letters) = letters(job, other) else {
        return found;
    };
    match found {
        _ if letters == name => Other::Here,
        Other::Nobody if are_alike(letters, name) => Other::Like(other),
        _ => found,
    }
}

// What a session that begins makes of it.
fn begun(found: Other) -> Other {
    match found {
        Other::Here | Other::Earlier => Other::Earlier,
        Other::Like(_) | Other::Nobody => Other::Nobody,
    }
}

// Looks for a name that is not held through so many records.
pub fn look_for(job: &[u8], list: &[u8], records: usize, name: &[u8]) -> Other {
    (0..records).fold(Other::Nobody, |found, i| after(job, list, i, name, found))
}
