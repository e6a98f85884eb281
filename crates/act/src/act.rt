// What an operator needs of the arm and does to it.
ghost use Rattle.std.specs.Prelude.{◌≡◌};
ghost use Rattle.items.specs.Rows.{rows_of, Sized};
ghost use Rattle.scope.specs.Arm.{needs_cursor, needs_space, select_of, effect_of};
ghost use Rattle.page.specs.Views.{space_as, select_as, effect_as, act_as};
ghost use Rattle.act.specs.Acts.{read, act_for, brush_space, space_effect, plain};

use names::attributes::{COLOR_SPACE, GRAY_LEVEL, PATTERN_SELECT_ID, RGB_COLOR};
use names::operators::{
    BEGIN_IMAGE, BEGIN_RAST_PATTERN, LINE_PATH, LINE_REL_PATH, NEW_PATH, POP_GS, PUSH_GS,
    SET_BRUSH_SOURCE, SET_COLOR_SPACE, SET_CURSOR, SET_CURSOR_REL, SET_DEFAULT_GS, SET_PEN_SOURCE,
};
use page::page::{Act, Effect, Space};

// The operator needs no colour space, selects no pattern and does nothing to the page, as most.
pub fn is_plain(tag: u8) -> bool
    ensures { result ≡ plain tag }
{
    !matches!(
        tag,
        SET_DEFAULT_GS
            | POP_GS
            | PUSH_GS
            | SET_BRUSH_SOURCE
            | SET_COLOR_SPACE
            | SET_CURSOR
            | SET_PEN_SOURCE
            | NEW_PATH
            | BEGIN_IMAGE
            | BEGIN_RAST_PATTERN
    )
}

// SetCursorRel, LinePath, LineRelPath and BeginImage need the cursor set.
pub fn needs_cursor(tag: u8) -> bool
    ensures { result ≡ needs_cursor tag }
{
    matches!(
        tag,
        SET_CURSOR_REL | LINE_PATH | LINE_REL_PATH | BEGIN_IMAGE
    )
}

// Of a brush or a pen: RGBColor needs RGB, GrayLevel gray.
fn brush_space(attrs: &[usize; 80], n: usize) -> Space
    ensures { Sized attrs.now n → space_as result ≡ brush_space (rows_of attrs.now n) }
{
    if attributes::has(attrs, n, RGB_COLOR) {
        Space::Rgb
    } else if attributes::has(attrs, n, GRAY_LEVEL) {
        Space::Gray
    } else {
        Space::Any
    }
}

// The colour space that an operator needs.
fn needs_space(tag: u8, attrs: &[usize; 80], n: usize) -> Space
    ensures { Sized attrs.now n → space_as result ≡ needs_space tag (rows_of attrs.now n) }
{
    match tag {
        BEGIN_IMAGE | BEGIN_RAST_PATTERN => Space::Gray,
        SET_BRUSH_SOURCE | SET_PEN_SOURCE => brush_space(attrs, n),
        _ => Space::Any,
    }
}

// SetBrushSource selects a pattern by PatternSelectID.
fn select_of(s: &[u8], high: bool, tag: u8, attrs: &[usize; 80], n: usize) -> Option<u16>
    ensures { Sized attrs.now n → select_as result ≡ select_of high s.now tag (rows_of attrs.now n) }
{
    if tag == SET_BRUSH_SOURCE && attributes::has(attrs, n, PATTERN_SELECT_ID) {
        Some(attributes::value_in(s, high, attrs, n, PATTERN_SELECT_ID) as u16)
    } else {
        None
    }
}

// SetColorSpace sets the colour space.
fn space_effect(s: &[u8], high: bool, attrs: &[usize; 80], n: usize) -> Effect
    ensures { Sized attrs.now n → effect_as result ≡ space_effect high s.now (rows_of attrs.now n) }
{
    let space = attributes::value_in(s, high, attrs, n, COLOR_SPACE);
    Effect::Put(None, Some(space == 1))
}

fn effect_of(s: &[u8], high: bool, gray: bool, tag: u8, attrs: &[usize; 80], n: usize) -> Effect
    ensures { Sized attrs.now n → effect_as result ≡ effect_of (read high gray) s.now tag (rows_of attrs.now n) }
{
    match tag {
        PUSH_GS => Effect::Push,
        POP_GS => Effect::Pop,
        SET_CURSOR => Effect::Put(Some(true), None),
        NEW_PATH => Effect::Put(Some(false), None),
        SET_COLOR_SPACE => space_effect(s, high, attrs, n),
        SET_DEFAULT_GS => Effect::Put(Some(false), Some(gray)),
        _ => Effect::Put(None, None),
    }
}

// What an operator needs and does, which reads data or not, in a byte order and where pages start in gray or not.
pub fn act_of(
    s: &[u8],
    high: bool,
    gray: bool,
    tag: u8,
    reads: bool,
    attrs: &[usize; 80],
    n: usize,
) -> Act
    ensures { Sized attrs.now n → act_as result ≡ act_for high gray s.now tag reads (rows_of attrs.now n) }
{
    Act {
        source: reads,
        cursor: needs_cursor(tag),
        space: needs_space(tag, attrs, n),
        select: select_of(s, high, tag, attrs, n),
        effect: effect_of(s, high, gray, tag, attrs, n),
    }
}
