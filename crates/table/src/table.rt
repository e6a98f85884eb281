// The operator table: a line for an operator, in the order of Appendix C of 000, and a line for each attribute; and what class 2;1 has besides.
ghost use Rattle.std.specs.Prelude.{◌≡◌, ◌≤◌, true, ◌∷◌, []};
ghost use Rattle.scope.specs.Header.{one, two};
ghost use Rattle.scope.specs.Table.{table_one, table_two, table, line_in};
ghost use Rattle.setting.specs.Views.{class_as};
ghost use Rattle.scope.specs.Choice.{among};
ghost use Rattle.table.specs.Lines.{own_lines, own_rules, own_line, own_rule, is_known, row_with, brief_as, brief_of, takes_of, rule_of};
ghost use Rattle.table.specs.declared.table.Form.TheVariants.{Each, One, Line};

use names::attributes::{COLOR_DEPTH as DEPTH, SOURCE_HEIGHT as HEIGHT, SOURCE_WIDTH as WIDTH, *};
use names::operators::*;
use setting::Class;

// How an operator's attributes belong together: each by itself, of which the first so many must be there; exactly one
// of them; or the first alone or both others.
#[derive(Clone, Copy)]
pub enum Form {
    Each(usize),
    One,
    Line,
    Unknown,
}

// An operator's line: how its attributes belong together, and their numbers.
#[derive(Clone, Copy)]
pub struct Row {
    pub form: Form,
    pub numbers: [u8; 8],
}

// No attribute.
pub const NO: u8 = 0;

// The values that an attribute takes: E a ubyte, N a ubyte or uint16, P a point, B a box, A an array of ubytes,
// D two uint16 or reals, M and M2 MediaSize in 1;1 and in 2;1, L a ubyte, uint16 or uint32, I a sint16.
#[derive(Clone, Copy)]
pub enum Kind {
    E,
    N,
    P,
    B,
    A,
    D,
    M,
    M2,
    L,
    I,
}

// An attribute's values, the lowest and the highest.
#[derive(Clone, Copy)]
pub struct Rule {
    pub kind: Kind,
    pub low: usize,
    pub high: usize,
}

// A line with up to eight numbers.
fn line<const N: usize>(form: Form, first: [u8; N]) -> Row
    requires { N ≤ 8 }
    ensures { result ≡ row_with form first.entry }
{
    let mut numbers = [NO; 8];
    numbers[..N].copy_from_slice(&first);
    Row { form, numbers }
}

// Takes no attribute.
fn nothing() -> Row
    ensures { result ≡ row_with (Each 0) [] }
{
    line(Form::Each(0), [])
}

// Takes these, which must be there.
fn needs<const N: usize>(numbers: [u8; N]) -> Row
    requires { N ≤ 8 }
    ensures { result ≡ row_with (Each N) numbers.entry }
{
    line(Form::Each(N), numbers)
}

// Takes these, of which the first so many must be there.
fn each<const N: usize>(must: usize, numbers: [u8; N]) -> Row
    requires { N ≤ 8 }
    ensures { result ≡ row_with (Each must) numbers.entry }
{
    line(Form::Each(must), numbers)
}

// Takes exactly one of these.
fn one_of<const N: usize>(numbers: [u8; N]) -> Row
    requires { N ≤ 8 }
    ensures { result ≡ row_with One numbers.entry }
{
    line(Form::One, numbers)
}

// Takes the first alone, or both others.
fn one_or_both(a: u8, b: u8, c: u8) -> Row
    ensures { result ≡ row_with Line (a ∷ b ∷ c ∷ []) }
{
    line(Form::Line, [a, b, c])
}

// What attributes an operator takes in class 1;1: one line for one operator.
#[tactic(auto, unfolding(scope::specs::Table::table_one, scope::specs::Table::line_in, crate::specs::Lines::must_in, crate::specs::Lines::numbers_in, crate::specs::Lines::up_to_no))]
fn row_of_one(tag: u8) -> Row
    ensures { brief_as result ≡ brief_of (line_in table_one tag) }
{
    match tag {
        BEGIN_IMAGE => needs([COLOR_MAPPING, DEPTH, WIDTH, HEIGHT, DESTINATION_SIZE]),
        BEGIN_PAGE => each(2, [ORIENTATION, MEDIA_SIZE, MEDIA_SOURCE]),
        BEGIN_RAST_PATTERN => needs([
            COLOR_MAPPING,
            DEPTH,
            WIDTH,
            HEIGHT,
            DESTINATION_SIZE,
            PATTERN_DEFINE_ID,
            PATTERN_PERSISTENCE,
        ]),
        BEGIN_SESSION => each(2, [MEASURE, UNITS_PER_MEASURE, ERROR_REPORT]),
        BEGIN_STREAM => needs([STREAM_NAME]),
        CLOSE_DATA_SOURCE => nothing(),
        CLOSE_SUB_PATH => nothing(),
        COMMENT => each(0, [COMMENT_DATA]),
        END_IMAGE => nothing(),
        END_PAGE => each(0, [PAGE_COPIES]),
        END_RAST_PATTERN => nothing(),
        END_SESSION => nothing(),
        END_STREAM => nothing(),
        EXEC_STREAM => needs([STREAM_NAME]),
        LINE_PATH => one_or_both(END_POINT, NUMBER_OF_POINTS, POINT_TYPE),
        LINE_REL_PATH => one_or_both(END_POINT, NUMBER_OF_POINTS, POINT_TYPE),
        NEW_PATH => nothing(),
        OPEN_DATA_SOURCE => each(2, [SOURCE_TYPE, DATA_ORG]),
        PAINT_PATH => nothing(),
        POP_GS => nothing(),
        PUSH_GS => nothing(),
        READ_IMAGE => each(3, [START_LINE, BLOCK_HEIGHT, COMPRESS_MODE]),
        READ_RAST_PATTERN => each(3, [START_LINE, BLOCK_HEIGHT, COMPRESS_MODE]),
        READ_STREAM => needs([STREAM_DATA_LENGTH]),
        RECTANGLE => needs([BOUNDING_BOX]),
        SET_BRUSH_SOURCE => one_of([RGB_COLOR, GRAY_LEVEL, NULL_BRUSH, PATTERN_SELECT_ID]),
        SET_COLOR_SPACE => needs([COLOR_SPACE]),
        SET_CURSOR => needs([POINT]),
        SET_CURSOR_REL => needs([POINT]),
        SET_PEN_SOURCE => one_of([RGB_COLOR, GRAY_LEVEL, NULL_PEN]),
        SET_PEN_WIDTH => needs([PEN_WIDTH]),
        _ => line(Form::Unknown, []),
    }
}

// The lines that are its own.
#[tactic(auto, unfolding(scope::specs::Table::table_two, scope::specs::Table::line_in, crate::specs::Lines::must_in, crate::specs::Lines::numbers_in, crate::specs::Lines::up_to_no, scope::specs::Choice::among))]
fn own_row(tag: u8) -> Row
    ensures { among own_lines tag ≡ true → brief_as result ≡ brief_of (line_in table_two tag) }
{
    match tag {
        BEGIN_PAGE => each(0, [ORIENTATION, MEDIA_SIZE, MEDIA_SOURCE, MEDIA_TYPE]),
        READ_IMAGE | READ_RAST_PATTERN => each(
            3,
            [
                START_LINE,
                BLOCK_HEIGHT,
                COMPRESS_MODE,
                PAD_BYTES_MULTIPLE,
                BLOCK_BYTE_LENGTH,
            ],
        ),
        _ => nothing(),
    }
}

// The operator's line is one of class 2;1 alone.
#[tactic(auto, unfolding(scope::specs::Choice::among))]
fn is_own_line(class: Class, tag: u8) -> bool
    ensures { result ≡ own_line (class_as class) tag }
{
    match class {
        Class::One => false,
        Class::Two => matches!(
            tag,
            BEGIN_PAGE | READ_IMAGE | READ_RAST_PATTERN | SET_DEFAULT_GS
        ),
    }
}

// What attributes an operator takes in a class: in 2;1 by its own lines, all others as in 1;1.
pub fn row_of(class: Class, tag: u8) -> Row
    ensures { brief_as result ≡ brief_of (line_in (table (class_as class)) tag) }
{
    if is_own_line(class, tag) {
        return own_row(tag);
    }
    row_of_one(tag)
}

// A rule on one line; a struct literal would take five.
fn takes(kind: Kind, low: usize, high: usize) -> Rule
    ensures { result ≡ record { kind = kind; low = low; high = high } }
{
    Rule { kind, low, high }
}

// The values that an attribute takes in class 1;1, which are the same in every line that has it.
#[tactic(auto, unfolding(scope::specs::Table::table_one, scope::specs::Table::table, scope::specs::Table::rule_in, crate::specs::Lines::rules_in, crate::specs::Lines::rule_of))]
fn rule_of_one(number: u8) -> Rule
    ensures { takes_of result ≡ (rule_of one number).takes }
{
    match number {
        COLOR_SPACE => takes(Kind::E, 1, 2),
        NULL_BRUSH => takes(Kind::E, 0, 0),
        NULL_PEN => takes(Kind::E, 0, 0),
        PATTERN_SELECT_ID => takes(Kind::I, 0, 0),
        GRAY_LEVEL => takes(Kind::E, 0, 255),
        RGB_COLOR => takes(Kind::A, 3, 3),
        MEDIA_SIZE => takes(Kind::M, 0, 0),
        MEDIA_SOURCE => takes(Kind::E, 0, 6),
        ORIENTATION => takes(Kind::E, 0, 3),
        PAGE_COPIES => takes(Kind::N, 1, 1),
        BOUNDING_BOX => takes(Kind::B, 0, 0),
        END_POINT => takes(Kind::P, 0, 0),
        PEN_WIDTH => takes(Kind::N, 0, 65_535),
        POINT => takes(Kind::P, 0, 0),
        NUMBER_OF_POINTS => takes(Kind::N, 1, 65_535),
        POINT_TYPE => takes(Kind::E, 0, 3),
        DEPTH => takes(Kind::E, 0, 2),
        BLOCK_HEIGHT => takes(Kind::N, 1, 65_535),
        COLOR_MAPPING => takes(Kind::E, 0, 0),
        COMPRESS_MODE => takes(Kind::E, 0, 0),
        DESTINATION_SIZE => takes(Kind::D, 1, 0),
        PATTERN_PERSISTENCE => takes(Kind::E, 1, 2),
        PATTERN_DEFINE_ID => takes(Kind::I, 0, 0),
        HEIGHT => takes(Kind::N, 1, 65_535),
        WIDTH => takes(Kind::N, 1, 65_535),
        START_LINE => takes(Kind::N, 0, 65_535),
        COMMENT_DATA => takes(Kind::A, 0, 1024),
        DATA_ORG => takes(Kind::E, 0, 1),
        MEASURE => takes(Kind::E, 0, 2),
        SOURCE_TYPE => takes(Kind::E, 0, 0),
        UNITS_PER_MEASURE => takes(Kind::D, 1, 0),
        STREAM_NAME => takes(Kind::A, 1, 16),
        STREAM_DATA_LENGTH => takes(Kind::N, 1, 65_535),
        ERROR_REPORT => takes(Kind::E, 0, 3),
        _ => takes(Kind::E, 1, 0),
    }
}

// The values that are its own.
#[tactic(auto, unfolding(scope::specs::Table::table_two, scope::specs::Table::table, scope::specs::Table::rule_in, crate::specs::Lines::rules_in, crate::specs::Lines::rule_of, scope::specs::Choice::among))]
fn own_rule(number: u8) -> Rule
    ensures { among own_rules number ≡ true → takes_of result ≡ (rule_of two number).takes }
{
    match number {
        ORIENTATION => takes(Kind::E, 0, 3),
        MEDIA_SIZE => takes(Kind::M2, 0, 0),
        MEDIA_TYPE => takes(Kind::A, 0, 1024),
        PAD_BYTES_MULTIPLE => takes(Kind::E, 1, 255),
        _ => takes(Kind::L, 0, 0),
    }
}

// The attribute's values are those of class 2;1 alone.
#[tactic(auto, unfolding(scope::specs::Choice::among))]
fn is_own_rule(class: Class, number: u8) -> bool
    ensures { result ≡ own_rule (class_as class) number }
{
    match class {
        Class::One => false,
        Class::Two => matches!(
            number,
            ORIENTATION | MEDIA_SIZE | MEDIA_TYPE | PAD_BYTES_MULTIPLE | BLOCK_BYTE_LENGTH
        ),
    }
}

// The values that an attribute takes in a class.
pub fn rule_of(class: Class, number: u8) -> Rule
    ensures { takes_of result ≡ (rule_of (class_as class) number).takes }
{
    if is_own_rule(class, number) {
        return own_rule(number);
    }
    rule_of_one(number)
}

// The form of a line that the table has.
pub fn is_known(form: Form) -> bool
    ensures { result ≡ is_known form }
{
    !matches!(form, Form::Unknown)
}
