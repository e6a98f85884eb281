// The items before an operator: pairs of a value and an attribute number, with white space between items, then the operator's tag.
ghost use Rattle.std.specs.Prelude.{◌≡◌, length};
ghost use Rattle.scope.specs.Item.{scan_at};
ghost use Rattle.items.specs.Scans.{scan_as, Within};

use crate::pair::pair_at;
use refusal::{Code, Refusal};
use white::{after_white, between};

// An operator's tag, how many attributes it has, and its place.
#[derive(Clone, Copy)]
pub struct Tagged {
    pub tag: u8,
    pub count: u32,
    pub at: usize,
}

// The items from `start` on up to the next operator's tag, and none where the bytes end with nothing waiting; the attributes go to `attrs`.
pub fn scan_at(
    s: &[u8],
    start: usize,
    high: bool,
    attrs: &mut [usize; 80],
) -> Result<Option<Tagged>, Refusal>
    ensures attrs_len_unchanged { length attrs.new ≡ length attrs.old }
    ensures attrs_after { length attrs.old ≡ 80 → scan_as result attrs.new ≡ scan_at high s.now start }
    ensures within { Within (length s.now) start result }
{
    let mut n: usize = 0;
    let mut at = start;
    'pairs: loop {
        at = after_white(s, at);
        if s.len() <= at {
            break 'pairs if n == 0 {
                Ok(None)
            } else {
                Err(Refusal {
                    code: Code::NotEnded,
                    place: s.len(),
                })
            };
        }
        let tag = s[at];
        if between(0x41, 0xbf, tag) {
            break 'pairs Ok(Some(Tagged {
                tag,
                count: n as u32,
                at,
            }));
        }
        at = pair_at(s, at, n, high, attrs)?;
        n += 1;
    }
}
