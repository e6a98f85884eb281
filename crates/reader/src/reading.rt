// The next operator from a place on, for a job and for a motif.
ghost use Rattle.std.specs.Prelude.{◌≡◌, ◌<◌, length};
ghost use Rattle.items.specs.Rows.{rows_of, Sized};
ghost use Rattle.scope.specs.Order.{image_of};
ghost use Rattle.scope.specs.Reading.{as_whole, operator_at};
ghost use Rattle.scope.specs.Table.{table, line_in};
ghost use Rattle.setting.specs.Views.{class_as};
ghost use Rattle.rules.specs.Judging.{fault_as};
ghost use Rattle.order.specs.Views.{phase_as};
ghost use Rattle.due.specs.Views.{image_as};
ghost use Rattle.reader.specs.Reads.{found_as, Placed, context_as, one_as, OneWithin, read_as, data_at, line_at, Within};

use crate::data::block_at;
use due::{Image, due_of, rows_fit};
use items::{Tagged, scan_at};
use order::{Phase, may_come};
use refusal::{Code, Refusal};
use setting::Setting;

// What reading has to know: the setting, the phase, whether the source is open, and whether 17 is judged.
#[derive(Clone, Copy)]
pub struct Context {
    pub set: Setting,
    pub phase: Phase,
    pub opened: bool,
    pub asked: bool,
}

// An operator: its tag and the tag's place, the number of its attributes, whether it reads data, the data (0 and 0 if it reads none), the place after it.
#[derive(Clone, Copy)]
pub struct Operator {
    pub tag: u8,
    pub at: usize,
    pub count: usize,
    pub reads: bool,
    pub length: usize,
    pub first: usize,
    pub next: usize,
}

// The image of a phase, or the pattern; one without rows where there is none.
fn image_of(phase: Phase) -> Image
    ensures { image_as result ≡ image_of (phase_as phase) }
{
    match phase {
        Phase::InImage(image) | Phase::InPattern(image) => image,
        _ => Image {
            width: 0,
            depth: 0,
            height: 0,
            rows: 0,
        },
    }
}

// The first byte of the data of the operator at a place, of which so much is due: 17, then the data after white space.
#[tactic(auto, using(crate::proofs::Blocks::placed), unfolding(crate::specs::Reads::data_at))]
fn data_at(c: Context, s: &[u8], at: usize, due: usize) -> Result<usize, Refusal>
    requires { at < length s.now }
    ensures result_value { found_as result ≡ data_at (context_as c) s.now at due }
    ensures placed { Placed (length s.now) at due result }
{
    if c.asked && !c.opened {
        return Err(Refusal {
            code: Code::Source,
            place: at,
        });
    }
    let p = white::after_white(s, at + 1);
    block_at(s, c.set.high, at, due, p)
}

// What is wrong with an operator, before rows and data: 9, 10, then the attributes, all by its line of the table.
#[tactic(auto, using(crate::proofs::Lines::known), unfolding(crate::specs::Reads::line_at))]
fn line_at(c: Context, s: &[u8], found: Tagged, attrs: &[usize; 80]) -> Result<(), Refusal>
    ensures { Sized attrs.now found.count → fault_as result ≡ line_at (context_as c) s.now found.tag found.at (rows_of attrs.now found.count) (line_in (table (class_as c.set.class)) found.tag) }
{
    let Tagged { tag, count, at } = found;
    let row = table::row_of(c.set.class, tag);
    if !table::is_known(row.form) {
        return Err(Refusal {
            code: Code::NoOperator,
            place: at,
        });
    }
    if !may_come(c.phase, c.opened, tag) {
        return Err(Refusal {
            code: Code::Order,
            place: at,
        });
    }
    rules::line_fault(s, c.set, row, at, attrs, count as usize)
}

// An operator in whose attributes nothing is wrong: 14 for its rows, then the data that is due.
#[tactic(auto, using(crate::proofs::Lines::whole), unfolding(scope::specs::Reading::as_whole, scope::specs::Reading::with_block))]
fn whole_at(c: Context, s: &[u8], found: Tagged, attrs: &[usize; 80]) -> Result<Operator, Refusal>
    requires { found.at < length s.now }
    ensures read { Sized attrs.now found.count → one_as result attrs.now ≡ as_whole (context_as c) s.now found.tag found.at (rows_of attrs.now found.count) 0 }
    ensures within { OneWithin (length s.now) found result }
{
    let Tagged { tag, count, at } = found;
    let n = count as usize;
    let image = image_of(c.phase);
    if !rows_fit(s, c.set.high, image, tag, attrs, n) {
        return Err(Refusal {
            code: Code::Clash,
            place: at,
        });
    }
    match due_of(s, c.set.high, image, tag, attrs, n) {
        None => Ok(Operator {
            tag,
            at,
            count: n,
            reads: false,
            length: 0,
            first: 0,
            next: at + 1,
        }),
        Some(length) => {
            let first = data_at(c, s, at, length)?;
            Ok(Operator {
                tag,
                at,
                count: n,
                reads: true,
                length,
                first,
                next: first + length,
            })
        }
    }
}

// The next operator from `start` on, or none where the bytes end; its attributes go to `attrs`.
#[tactic(auto, using(crate::proofs::Lines::line_after), unfolding(scope::specs::Reading::operator_at, scope::specs::Reading::scanned))]
pub fn operator_at(
    c: Context,
    s: &[u8],
    start: usize,
    attrs: &mut [usize; 80],
) -> Result<Option<Operator>, Refusal>
    ensures attrs_len_unchanged { length attrs.new ≡ length attrs.old }
    ensures attrs_after { length attrs.old ≡ 80 → read_as result attrs.new ≡ operator_at (context_as c) s.now start }
    ensures within { Within (length s.now) start result }
{
    let Some(found) = scan_at(s, start, c.set.high, attrs)? else {
        return Ok(None);
    };
    line_at(c, s, found, attrs)?;
    Ok(Some(whole_at(c, s, found, attrs)?))
}
