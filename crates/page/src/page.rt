// The state in a page, and what an operator needs of it and does to it.
ghost use Rattle.std.specs.Prelude.{◌≡◌, ℕ, ◌≤◌, ◌<◌, min};
ghost use Rattle.scope.specs.Arm.{done, risen, push, pop, put};
ghost use Rattle.scope.specs.Arm.{blank as arm_blank, Page as ArmPage};
ghost use Rattle.page.specs.Alone.{Pushed, Popped, Leaves};
ghost use Rattle.page.specs.Holds.{PageHolds};
ghost use Rattle.page.specs.Views.{bits_of, page_as, mark_as, effect_as};

use counts::higher;
use names::limits::SAVED_MOST;
use names::operators::{CLOSE_SUB_PATH, NEW_PATH, PAINT_PATH, POP_GS, PUSH_GS};

// What an operator does: PushGS, PopGS, or cursor (true is set) and colour space (true is gray) put, or kept where there is none.
#[derive(Clone, Copy)]
pub enum Effect {
    Push,
    Pop,
    Put(Option<bool>, Option<bool>),
}

// The colour space that an operator needs.
#[derive(Clone, Copy)]
pub enum Space {
    Any,
    Gray,
    Rgb,
}

// What an operator needs, and then does; the pattern that it selects stands by its number.
#[derive(Clone, Copy)]
pub struct Act {
    pub source: bool,
    pub cursor: bool,
    pub space: Space,
    pub select: Option<u16>,
    pub effect: Effect,
}

// Cursor set or not, colour space gray or RGB, and the saved states: how many, and two bits for each, the last one saved lowest.
#[derive(Clone, Copy)]
pub struct Page {
    pub cursor: bool,
    pub gray: bool,
    pub depth: u32,
    pub saved: u64,
}

// A page as BeginPage starts it.
pub fn blank(gray: bool) -> Page
    ensures { PageHolds result (arm_blank gray) }
{
    Page {
        cursor: false,
        gray,
        depth: 0,
        saved: 0,
    }
}

fn bits(cursor: bool, gray: bool) -> u64
    ensures { result ≡ bits_of cursor gray }
{
    if cursor {
        if gray { 3 } else { 1 }
    } else {
        if gray { 2 } else { 0 }
    }
}

impl Page {
    // PushGS saves cursor state and colour space; with 24 saved it is refused.
    fn push(self) -> Option<Page>
        ensures { Pushed self result }
    {
        if SAVED_MOST <= self.depth {
            return None;
        }
        Some(Page {
            cursor: self.cursor,
            gray: self.gray,
            depth: self.depth + 1,
            saved: self.saved % 70_368_744_177_664 * 4 + bits(self.cursor, self.gray),
        })
    }

    // PopGS brings both back; with nothing saved it is refused.
    fn pop(self) -> Option<Page>
        ensures { Popped self result }
    {
        if self.depth == 0 {
            return None;
        }
        Some(Page {
            cursor: self.saved % 2 == 1,
            gray: self.saved / 2 % 2 == 1,
            depth: self.depth - 1,
            saved: self.saved / 4,
        })
    }

    fn put(self, cursor: Option<bool>, gray: Option<bool>) -> Page
        ensures { page_as result ≡ done (put (mark_as cursor) (mark_as gray)) (page_as self) }
    {
        Page {
            cursor: cursor.unwrap_or(self.cursor),
            gray: gray.unwrap_or(self.gray),
            ..self
        }
    }

    // The page after an effect, where no more than 24 are saved then.
    pub fn done(self, effect: Effect) -> Page
        ensures { risen (effect_as effect) (page_as self) 0 ≤ 24 → page_as result ≡ done (effect_as effect) (page_as self) }
    {
        match effect {
            Effect::Push => self.push().unwrap_or(self),
            Effect::Pop => self.pop().unwrap_or(self),
            Effect::Put(cursor, gray) => self.put(cursor, gray),
        }
    }

    // The most states saved, after an effect; past 24 it is 25.
    pub fn risen(self, effect: Effect, most: u32) -> u32
        ensures { (m : ℕ) → most ≡ min m 25 → result ≡ min (risen (effect_as effect) (page_as self) m) 25 }
    {
        match effect {
            Effect::Push => higher(most, self.depth, 1),
            Effect::Pop => most,
            Effect::Put(_, _) => most,
        }
    }

    // The page after CloseSubPath, NewPath, PaintPath, PushGS or PopGS, where that may come and no rule of the page refuses it.
    pub fn past(self, tag: u8) -> Option<Page>
        ensures { (q : ArmPage) → PageHolds self q → Leaves tag q result }
    {
        match tag {
            CLOSE_SUB_PATH | PAINT_PATH => Some(self),
            NEW_PATH => Some(self.put(Some(false), None)),
            POP_GS => self.pop(),
            PUSH_GS => self.push(),
            _ => None,
        }
    }
}
