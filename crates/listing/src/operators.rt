// The operators of a job with their attributes, a line each, indented by session, page and motif definition.
use crate::records::{Attribute, Operator, attribute_at, operator_at};
use names::attributes::{COMMENT_DATA, STREAM_NAME};
use names::operators::{
    BEGIN_PAGE, BEGIN_SESSION, BEGIN_STREAM, END_PAGE, END_SESSION, END_STREAM,
};
use std::io;
use text::say;

fn indent<P: Print>(out: &P, depth: u32) -> io::Result<()> {
    match depth {
        0 => say(out, b"  "),
        1 => say(out, b"    "),
        _ => say(out, b"      "),
    }
}

// The depth of an operator's own line.
fn depth_at(tag: u8, depth: u32) -> u32 {
    match tag {
        END_SESSION | END_PAGE | END_STREAM => depth.saturating_sub(1),
        _ => depth,
    }
}

// The depth of the lines behind it.
fn depth_behind(tag: u8, depth: u32) -> u32 {
    match tag {
        BEGIN_SESSION | BEGIN_PAGE | BEGIN_STREAM if depth < 2 => depth + 1,
        _ => depth,
    }
}

// The attribute of a record; StreamName and CommentData are said as text.
fn attribute<P: Print>(out: &P, job: &[u8], a: Attribute) -> io::Result<()> {
    say(out, b", ")?;
    phrase::attribute(out, usize::from(a.number))?;
    say(out, b" ")?;
    match a.number {
        STREAM_NAME | COMMENT_DATA => text::part(out, job, a.count as usize, a.first as usize),
        _ => phrase::value(out, job, a.tag, a.count, a.first as usize),
    }
}

// The attributes of the operator of record i, which stand right before it.
fn attributes<P: Print>(
    out: &P,
    job: &[u8],
    list: &[u8],
    i: usize,
    count: usize,
) -> io::Result<()> {
    for j in i.saturating_sub(count)..i {
        if let Some(a) = attribute_at(list, j) {
            attribute(out, job, a)?;
        }
    }
    Ok(())
}

// The embedded data, if there is any.
fn data<P: Print>(out: &P, length: u32) -> io::Result<()> {
    if length == 0 {
        return Ok(());
    }
    say(out, b", ")?;
    text::many(out, length, b"byte")?;
    say(out, b" of data")
}

// The line of the operator of record i.
fn operator<P: Print>(out: &P, job: &[u8], list: &[u8], i: usize, o: Operator) -> io::Result<()> {
    phrase::operator(out, o.tag)?;
    say(out, b" at byte ")?;
    text::plain(out, o.at)?;
    attributes(out, job, list, i, usize::from(o.attributes))?;
    data(out, o.length)?;
    say(out, b"\n")
}

// Says the line of record i, if it is an operator's; the answer is the depth behind it.
pub fn line<P: Print>(out: &P, job: &[u8], list: &[u8], i: usize, depth: u32) -> io::Result<u32> {
    let Some(o) = operator_at(list, i) else {
        return Ok(depth);
    };
    let own = depth_at(o.tag, depth);
    indent(out, own)?;
    operator(out, job, list, i, o)?;
    Ok(depth_behind(o.tag, own))
}
