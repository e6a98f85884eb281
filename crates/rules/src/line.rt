// The numbers of an operator's line, against the attributes that are there.
ghost use Rattle.std.specs.Prelude.{◌≡◌, ◌<◌, take};
ghost use Rattle.scope.specs.Choice.{pick, among};
ghost use Rattle.scope.specs.Attributes.{has as hasIn};
ghost use Rattle.items.specs.Rows.{rows_of, Sized};
ghost use Rattle.table.specs.Lines.{up_to_no};
ghost use Rattle.rules.specs.Judging.{all_in, many_in};

use attributes::is_given;
use table::NO;

// The line's attribute of this number; NO if it has none.
#[tactic(auto, using(crate::proofs::Numbered::among_by))]
pub fn listed(numbers: [u8; 8], number: usize) -> u8
    ensures { result ≡ pick (among (up_to_no numbers) number) number 0 }
{
    for &k in &numbers {
        if k == NO {
            return NO;
        }
        if usize::from(k) == number {
            return k;
        }
    }
    NO
}

// An attribute of this number is there; mostly it is attribute i.
#[tactic(auto, using(crate::proofs::Numbered::one_there))]
fn there(attrs: &[usize; 80], n: usize, i: usize, number: usize) -> bool
    requires { i < 16 }
    ensures { Sized attrs.now n → result ≡ hasIn number (rows_of attrs.now n) }
{
    (i < n && attrs[i * 5] == number) || is_given(attrs, n, number)
}

// The first so many numbers of the line are there.
#[tactic(auto, using(crate::proofs::Numbered::all_by_one))]
pub fn all_there(must: usize, numbers: [u8; 8], attrs: &[usize; 80], n: usize) -> bool
    ensures { Sized attrs.now n → result ≡ all_in (rows_of attrs.now n) (take must numbers) }
{
    for i in 0..must.min(8) {
        if !there(attrs, n, i, usize::from(numbers[i])) {
            return false;
        }
    }
    true
}

// How many attributes of the line are there.
#[tactic(auto, using(crate::proofs::Numbered::many_by_one))]
pub fn how_many(numbers: [u8; 8], attrs: &[usize; 80], n: usize) -> usize
    ensures { Sized attrs.now n → result ≡ many_in (rows_of attrs.now n) (up_to_no numbers) }
{
    let mut many: usize = 0;
    for &k in &numbers {
        if k == NO {
            break;
        }
        many += usize::from(is_given(attrs, n, usize::from(k)));
    }
    many
}
