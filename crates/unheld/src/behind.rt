// The search for a name behind the last operator of a job's list.
use names::operators::{BEGIN_STREAM, END_SESSION};
use phrase::after;
use trail::Walk;

// A motif of the name is defined later, at a place, in this session or in another.
#[derive(Clone, Copy)]
pub enum Later {
    Here(usize),
    Elsewhere(usize),
}

// The place behind the operator of record i and its data.
fn end_of(list: &[u8], i: usize) -> usize {
    match listing::operator_at(list, i) {
        Some(o) if o.length != 0 => after(o.first as usize, o.length as usize),
        Some(o) => after(o.at as usize, 1),
        None => 0,
    }
}

// The operator that a walk has come to defines a motif of the name.
fn is_defined(walk: &Walk, name: &[u8]) -> bool {
    walk.tag == Some(BEGIN_STREAM) && walk.name() == name
}

// From a place on.
fn from(job: &[u8], at: usize, name: &[u8]) -> Option<Later> {
    let mut walk = Walk {
        at,
        ..Walk::of_job(job)
    };
    let mut over = false;
    for _ in 0..job.len() {
        if !walk.pass(job.len()) {
            return None;
        }
        if is_defined(&walk, name) {
            return Some(if over {
                Later::Elsewhere(walk.place)
            } else {
                Later::Here(walk.place)
            });
        }
        over = over || walk.tag == Some(END_SESSION);
    }
    None
}

// Where a motif of the name is defined behind so many records.
pub fn look_behind(job: &[u8], list: &[u8], records: usize, name: &[u8]) -> Option<Later> {
    let last = records.checked_sub(1)?;
    from(job, end_of(list, last), name)
}
