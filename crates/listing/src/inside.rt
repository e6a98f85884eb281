// The motif that was defined last, by the records of the list: its bytes and its name.
ghost use Rattle.std.specs.Prelude.{◌≡◌, length};

use crate::records::{Operator, attribute_at, operator_at};
use names::attributes::STREAM_NAME;
use names::operators::{BEGIN_STREAM, READ_STREAM};
use phrase::after;
use std::io;

// The data of an operator, as they stand in the job.
fn data_of(job: &[u8], o: Operator) -> Option<&[u8]> {
    job.get(o.first as usize..)?.get(..o.length as usize)
}

// What an operator makes of the motif's bytes: BeginStream starts anew, ReadStream joins its data to those before; the answer is how many there are then.
fn onward(job: &[u8], o: Operator, motif: &mut [u8], used: usize) -> usize {
    match o.tag {
        BEGIN_STREAM => 0,
        READ_STREAM => {
            let Some(block) = data_of(job, o) else {
                return used;
            };
            buffer::join(block, motif, used);
            after(used, block.len())
        }
        _ => used,
    }
}

// Puts the motif's bytes into `motif`; the answer is how many there are.
pub fn gather(job: &[u8], list: &[u8], records: usize, motif: &mut [u8]) -> usize
    ensures { length motif.new ≡ length motif.old }
{
    let mut used: usize = 0;
    for i in 0..records {
        if let Some(o) = operator_at(list, i) {
            used = onward(job, o, motif, used);
        }
    }
    used
}

// Says the motif's name: the last StreamName of the list, since nothing but ReadStream comes behind it.
pub fn say_name<P: Print>(out: &P, job: &[u8], list: &[u8], records: usize) -> io::Result<()> {
    for i in (0..records).rev() {
        if let Some(name) = attribute_at(list, i) {
            if name.number == STREAM_NAME {
                return text::part(out, job, name.count as usize, name.first as usize);
            }
        }
    }
    text::part(out, job, 0, 0)
}
