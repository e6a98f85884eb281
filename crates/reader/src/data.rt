// Embedded data: where it is, or why there is none.
ghost use Rattle.std.specs.Prelude.{◌≡◌, ◌<◌, length};
ghost use Rattle.number.specs.Widths.{bytes_of};
ghost use Rattle.scope.specs.Data.{block_of, block_at};
ghost use Rattle.reader.specs.Reads.{found_as, Placed};

use number::{Width, bytes_of, number_at};
use refusal::{Code, Refusal};

// The first byte of the data of the operator at op: a data item whose tag stands at p, and whose length is of a width.
#[tactic(auto, unfolding(scope::specs::Data::block_of))]
fn block_of(
    s: &[u8],
    high: bool,
    op: usize,
    due: usize,
    p: usize,
    width: Width,
) -> Result<usize, Refusal>
    requires { p < length s.now }
    ensures result_value { found_as result ≡ block_of high s.now op due p (bytes_of width) }
    ensures placed { Placed (length s.now) p due result }
{
    let first = p + 1 + bytes_of(width);
    if s.len() < first {
        return Err(Refusal {
            code: Code::Cut,
            place: p,
        });
    }
    let told = number_at(s, p + 1, width, high) as usize;
    if told != due {
        return Err(Refusal {
            code: Code::Data,
            place: op,
        });
    }
    if s.len() - first < due {
        return Err(Refusal {
            code: Code::Cut,
            place: p,
        });
    }
    Ok(first)
}

// The first byte of the data of the operator at op, at a place that is not white.
#[tactic(auto, unfolding(scope::specs::Data::block_at))]
pub fn block_at(s: &[u8], high: bool, op: usize, due: usize, p: usize) -> Result<usize, Refusal>
    ensures result_value { found_as result ≡ block_at high s.now op due p }
    ensures placed { Placed (length s.now) p due result }
{
    if s.len() <= p {
        return Err(Refusal {
            code: Code::NotEnded,
            place: s.len(),
        });
    }
    match s[p] {
        0xfa => block_of(s, high, op, due, p, Width::Four),
        0xfb => block_of(s, high, op, due, p, Width::One),
        _ => Err(Refusal {
            code: Code::Data,
            place: op,
        }),
    }
}
