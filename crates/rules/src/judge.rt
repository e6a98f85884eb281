// An operator's attributes judged: one by one 11, 12, 15, 16, then as a whole 13, 14.
ghost use Rattle.std.specs.Prelude.{◌≡◌, true, List, [], ℕ, ◌<◌};
ghost use Rattle.scope.specs.Names.{EndPoint, NumberOfPoints, PointType};
ghost use Rattle.scope.specs.Header.{Class};
ghost use Rattle.scope.specs.Table.{Rule as RuleIn, table, line_in};
ghost use Rattle.scope.specs.Attributes.{has as hasIn, attribute_code, one_by_one, choice_code, pair_code, form_code};
ghost use Rattle.items.specs.Rows.{row_at, rows_of, Sized};
ghost use Rattle.setting.specs.Views.{class_as};
ghost use Rattle.table.specs.Lines.{up_to_no, is_known, form_as, must_as, brief_as, brief_of};
ghost use Rattle.values.specs.Views.{attribute_as};
ghost use Rattle.rules.specs.Judging.{ruled_in, Stands, Led, as_usual, code_as, fault_as, line_fault};

use crate::line::{all_there, how_many, listed};
use attributes::{at_most, has, is_given};
use names::attributes::{END_POINT, NUMBER_OF_POINTS, POINT_TYPE};
use refusal::{Code, Refusal};
use setting::Setting;
use table::{Form, NO, Row, rule_of};
use values::{Attribute, in_range, type_taken};

// Attribute i of the lent array.
#[tactic(auto, unfolding(items::specs::Rows::row_at))]
fn attribute_at(attrs: &[usize; 80], i: usize) -> Attribute
    requires { i < 16 }
    ensures { attribute_as result ≡ row_at attrs.now i }
{
    Attribute {
        number: attrs[i * 5],
        tag: attrs[i * 5 + 1],
        at: attrs[i * 5 + 2],
        count: attrs[i * 5 + 3],
        first: attrs[i * 5 + 4],
    }
}

// What is wrong with attribute i, given those before it.
#[tactic(auto, using(crate::proofs::Faults::coded))]
fn attribute_code(
    s: &[u8],
    set: Setting,
    numbers: [u8; 8],
    attrs: &[usize; 80],
    i: usize,
) -> Result<(), Code>
    requires { i < 16 }
    ensures { Sized attrs.now i → code_as result ≡ attribute_code set.high s.now (rows_of attrs.now i) (row_at attrs.now i) (ruled_in (class_as set.class) (up_to_no numbers) (row_at attrs.now i).number) }
{
    let a = attribute_at(attrs, i);
    let number = listed(numbers, a.number);
    if number == NO {
        return Err(Code::NoAttribute);
    }
    if is_given(attrs, i, a.number) {
        return Err(Code::Twice);
    }
    let rule = rule_of(set.class, number);
    if !type_taken(rule.kind, a.tag) {
        return Err(Code::Type);
    }
    if !in_range(s, set.high, rule.kind, rule.low, rule.high, a) {
        return Err(Code::Range);
    }
    Ok(())
}

// Attribute by attribute.
fn one_by_one(
    s: &[u8],
    set: Setting,
    numbers: [u8; 8],
    attrs: &[usize; 80],
    n: usize,
) -> Result<(), Refusal>
    ensures { (rules : List RuleIn) → Stands (class_as set.class) numbers rules → Sized attrs.now n → fault_as result ≡ one_by_one set.high s.now rules [] (rows_of attrs.now n) }
{
    for i in 0..at_most(n) {
        if let Err(code) = attribute_code(s, set, numbers, attrs, i) {
            return Err(Refusal {
                code,
                place: attrs[i * 5 + 2],
            });
        }
    }
    Ok(())
}

// Exactly one of a choice: none is 13, two are 14.
#[tactic(auto, unfolding(scope::specs::Attributes::choice_code))]
fn choice_code(many: usize) -> Result<(), Code>
    ensures { code_as result ≡ choice_code many }
{
    match many {
        0 => Err(Code::Missing),
        1 => Ok(()),
        _ => Err(Code::Clash),
    }
}

// EndPoint alone, or NumberOfPoints with PointType.
fn pair_code(end: bool, points: bool, kind: bool) -> Result<(), Code>
    ensures { code_as result ≡ pair_code end points kind }
{
    match (end, points, kind) {
        (true, false, false) | (false, true, true) => Ok(()),
        (false, false, false) => Err(Code::Missing),
        _ => Err(Code::Clash),
    }
}

// A line's attributes as they are mostly given: EndPoint alone, or NumberOfPoints before PointType.
#[tactic(auto, using(crate::proofs::Faults::usual))]
fn as_usual(attrs: &[usize; 80], n: usize) -> bool
    ensures { result ≡ as_usual (rows_of attrs.now n) }
{
    match n {
        1 => attrs[0] == END_POINT as usize,
        2 => attrs[0] == NUMBER_OF_POINTS as usize && attrs[5] == POINT_TYPE as usize,
        _ => false,
    }
}

// 13 and 14 of a line. Most lines are as usual, and those are not searched.
#[tactic(auto, using(crate::proofs::Faults::usual_fine))]
fn line_code(attrs: &[usize; 80], n: usize) -> Result<(), Code>
    ensures { Sized attrs.now n → code_as result ≡ pair_code (hasIn EndPoint (rows_of attrs.now n)) (hasIn NumberOfPoints (rows_of attrs.now n)) (hasIn PointType (rows_of attrs.now n)) }
{
    if as_usual(attrs, n) {
        return Ok(());
    }
    pair_code(
        has(attrs, n, END_POINT),
        has(attrs, n, NUMBER_OF_POINTS),
        has(attrs, n, POINT_TYPE),
    )
}

// 13 and 14, by the form of the line.
#[tactic(auto, using(crate::proofs::Faults::stands), unfolding(scope::specs::Attributes::form_code))]
fn form_code(form: Form, numbers: [u8; 8], attrs: &[usize; 80], n: usize) -> Result<(), Code>
    ensures { is_known form ≡ true → (class : Class) (rules : List RuleIn) → Stands class numbers rules → Led (must_as form) rules → Sized attrs.now n → code_as result ≡ form_code (rows_of attrs.now n) rules (form_as form) }
{
    match form {
        Form::Each(must) => {
            if all_there(must, numbers, attrs, n) {
                Ok(())
            } else {
                Err(Code::Missing)
            }
        }
        Form::One => choice_code(how_many(numbers, attrs, n)),
        Form::Line => line_code(attrs, n),
        Form::Unknown => Ok(()),
    }
}

// What is wrong with the attributes of an operator whose tag stands at a place, by its line: 11, 12, 15, 16, then 13, 14.
pub fn line_fault(
    s: &[u8],
    set: Setting,
    row: Row,
    at: usize,
    attrs: &[usize; 80],
    n: usize,
) -> Result<(), Refusal>
    ensures { (tag : ℕ) → brief_as row ≡ brief_of (line_in (table (class_as set.class)) tag) → is_known row.form ≡ true → Sized attrs.now n → fault_as result ≡ line_fault set.high s.now at (rows_of attrs.now n) (line_in (table (class_as set.class)) tag) }
{
    one_by_one(s, set, row.numbers, attrs, n)?;
    form_code(row.form, row.numbers, attrs, n).map_err(|code| Refusal { code, place: at })
}
