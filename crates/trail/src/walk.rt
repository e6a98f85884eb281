// From the first operator on to the one at a place.
ghost use Rattle.std.specs.Prelude.{◌≡◌, ◌<◌, ◌≤◌, IfSome, IsSome, IsTrue, MatchOption, true, false};
ghost use Rattle.items.specs.Rows.{rows_of, Sized};
ghost use Rattle.scope.specs.Attributes.{has as hasIn, value_in, bytes_in};

use crate::stand::{Phase, Rows, Stand};
use items::Tagged;
use names::attributes::{BLOCK_HEIGHT, COLOR_DEPTH, SOURCE_HEIGHT, SOURCE_WIDTH};
use names::operators::{
    BEGIN_IMAGE, BEGIN_PAGE, BEGIN_RAST_PATTERN, BEGIN_SESSION, BEGIN_STREAM, CLOSE_DATA_SOURCE,
    END_IMAGE, END_PAGE, END_RAST_PATTERN, END_SESSION, END_STREAM, OPEN_DATA_SOURCE, POP_GS,
    PUSH_GS, READ_IMAGE, READ_RAST_PATTERN,
};
use number::{Width, byte_at, number_at};
use phrase::after;
use setting::{Class, Setting};

// A walk through the bytes of a job or a motif, whose numbers stand with their high byte first or not: the place behind the last operator that it
// has passed and its data; of the operator that it has come to the place where its items begin, its tag if there is one, the tag's place, and how
// many attributes it has and which; and how matters stand before it.
#[derive(Clone, Copy)]
pub struct Walk<'a> {
    pub s: &'a [u8],
    pub high: bool,
    pub at: usize,
    pub start: usize,
    pub tag: Option<u8>,
    pub place: usize,
    pub count: usize,
    pub attrs: [usize; 80],
    pub stand: Stand,
}

// Numbers stand with their high byte first.
fn is_high(s: &[u8]) -> bool {
    byte_at(s, 0) == 0x28
}

// Where the operators of a job or a motif begin; its end if its header is malformed.
fn begin(s: &[u8]) -> usize {
    match header::header_of(s) {
        Ok(header) => header.next,
        Err(_) => s.len(),
    }
}

// The place behind an operator's tag, and behind its data if there is any.
fn behind(s: &[u8], high: bool, place: usize) -> usize {
    let p = white::after_white(s, after(place, 1));
    match byte_at(s, p) {
        0xfa => after(
            after(p, 5),
            number_at(s, after(p, 1), Width::Four, high) as usize,
        ),
        0xfb => after(after(p, 2), byte_at(s, after(p, 1)) as usize),
        _ => after(place, 1),
    }
}

impl<'a> Walk<'a> {
    // At the first operator.
    fn of(s: &'a [u8], stand: Stand) -> Walk<'a>
        ensures { (result.s.now ≡ s.now) × (result.tag ≡ None) × (result.count ≡ 0) × Sized result.attrs result.count × (result.stand ≡ stand) }
    {
        Walk {
            s,
            high: is_high(s),
            at: begin(s),
            start: 0,
            tag: None,
            place: 0,
            count: 0,
            attrs: [0; 80],
            stand,
        }
    }

    // At the first operator of a job.
    pub fn of_job(job: &'a [u8]) -> Walk<'a>
        ensures bytes { result.s.now ≡ job.now }
        ensures begins { (result.stand.phase ≡ Phase.Between) × (result.stand.motif ≡ false) }
        ensures none_come_to { (result.tag ≡ None) × (result.count ≡ 0) }
        ensures sized { Sized result.attrs result.count }
    {
        Walk::of(job, Stand::first(Phase::Between, false))
    }

    // At the first operator of a motif, which is as in a page from its start on.
    pub fn of_motif(motif: &'a [u8]) -> Walk<'a>
        ensures bytes { result.s.now ≡ motif.now }
        ensures begins { (result.stand.phase ≡ Phase.Page) × (result.stand.motif ≡ true) }
        ensures none_come_to { (result.tag ≡ None) × (result.count ≡ 0) }
        ensures sized { Sized result.attrs result.count }
    {
        Walk::of(motif, Stand::first(Phase::Page, true))
    }

    // The value of an attribute of the operator, a whole number; 0 where it is not there.
    pub fn value(&self, number: u8) -> u32
        ensures value { Sized self.now.attrs self.now.count → result ≡ value_in self.now.high self.now.s.now (rows_of self.now.attrs self.now.count) number }
        ensures upper_bound { result < 65536 }
    {
        attributes::value_in(self.s, self.high, &self.attrs, self.count, number)
    }

    // The operator has this attribute.
    pub fn has(&self, number: u8) -> bool
        ensures { Sized self.now.attrs self.now.count → result ≡ hasIn number (rows_of self.now.attrs self.now.count) }
    {
        attributes::has(&self.attrs, self.count, number)
    }

    // The name that the operator gives.
    pub fn name(&self) -> &'a [u8]
        ensures { Sized self.now.attrs self.now.count → result.now ≡ bytes_in self.now.s.now (rows_of self.now.attrs self.now.count) 139 }
    {
        let part = key::name_in(self.s, &self.attrs, self.count);
        &self.s[part.first..part.first + part.count]
    }

    // Comes to the operator that was read, or to none.
    fn come(&mut self, found: Option<Tagged>)
        requires { IfSome found (λ t. t.count ≤ 16) }
        ensures bytes { (self.new.s.now ≡ self.old.s.now) × (self.new.high ≡ self.old.high) }
        ensures sized { Sized self.new.attrs self.new.count }
        ensures start { self.new.start ≡ self.old.at }
        ensures come_to { MatchOption found (self.new.tag ≡ None) (λ t. (self.new.tag ≡ Some t.tag) × (self.new.place ≡ t.at)) }
    {
        self.start = self.at;
        self.tag = None;
        self.count = 0;
        self.place = self.at;
        if let Some(tagged) = found {
            self.tag = Some(tagged.tag);
            self.count = tagged.count as usize;
            self.place = tagged.at;
        }
    }

    // BeginImage and BeginRastPattern.
    fn begin_rows(&mut self, phase: Phase)
        ensures { self.new ≡ record self.old { stand = self.new.stand } }
    {
        self.stand.rows = Rows {
            width: self.value(SOURCE_WIDTH) as u16,
            depth: self.value(COLOR_DEPTH) as u16,
            height: self.value(SOURCE_HEIGHT) as u16,
            read: 0,
        };
        self.stand.phase = phase;
    }

    // ReadImage and ReadRastPattern.
    fn read_rows(&mut self)
        ensures { self.new ≡ record self.old { stand = self.new.stand } }
    {
        let more = self.value(BLOCK_HEIGHT);
        self.stand.rows.read = self.stand.rows.read.saturating_add(more);
    }

    // What an operator changes.
    fn step(&mut self, tag: u8)
        ensures { self.new ≡ record self.old { stand = self.new.stand } }
    {
        match tag {
            BEGIN_SESSION => self.stand.phase = Phase::Session,
            END_SESSION => self.stand.phase = Phase::Between,
            BEGIN_PAGE => self.stand.phase = Phase::Page,
            END_PAGE => self.stand.phase = Phase::Session,
            OPEN_DATA_SOURCE => self.stand.opened = true,
            CLOSE_DATA_SOURCE => self.stand.opened = false,
            BEGIN_STREAM => self.stand.phase = Phase::Stream,
            END_STREAM => self.stand.phase = Phase::Session,
            POP_GS => self.stand.saved = self.stand.saved.saturating_sub(1),
            PUSH_GS => self.stand.saved = self.stand.saved.saturating_add(1),
            BEGIN_IMAGE => self.begin_rows(Phase::Image),
            BEGIN_RAST_PATTERN => self.begin_rows(Phase::Pattern),
            READ_IMAGE | READ_RAST_PATTERN => self.read_rows(),
            END_IMAGE | END_RAST_PATTERN => self.stand.phase = Phase::Page,
            _ => {}
        }
    }

    // Comes to the next operator and passes it; the answer is no if it is the operator that is looked for, or if there is none. Where items before that
    // one are refused, they are read from its place on.
    pub fn pass(&mut self, to: usize) -> bool
        ensures bytes { (self.new.s.now ≡ self.old.s.now) × (self.new.high ≡ self.old.high) }
        ensures sized { Sized self.new.attrs self.new.count }
        ensures start { self.new.start ≡ self.old.at }
        ensures passed { IsTrue result → IsSome self.new.tag × (self.new.place < to) }
    {
        let Ok(found) = items::scan_at(self.s, self.at, self.high, &mut self.attrs) else {
            let found = items::scan_at(self.s, to, self.high, &mut self.attrs);
            self.come(found.unwrap_or(None));
            return false;
        };
        self.come(found);
        match found {
            Some(tagged) if tagged.at < to => {
                self.step(tagged.tag);
                self.at = behind(self.s, self.high, tagged.at);
                true
            }
            _ => false,
        }
    }

    // Comes to the operator at a place, or with a value there.
    pub fn come_to(&mut self, to: usize)
        ensures bytes { (self.new.s.now ≡ self.old.s.now) × (self.new.high ≡ self.old.high) }
        ensures sized { Sized self.old.attrs self.old.count → Sized self.new.attrs self.new.count }
    {
        for _ in 0..self.s.len() {
            if !self.pass(to) {
                return;
            }
        }
    }
}

// The class of a job or a motif that has a header.
pub fn class_in(s: &[u8]) -> Class {
    match byte_at(s, 12) {
        0x32 => Class::Two,
        _ => Class::One,
    }
}

// What a job with a header is read with, whose pages start in gray or else in RGB.
pub fn setting_in(job: &[u8], gray: bool) -> Setting {
    Setting {
        class: class_in(job),
        high: is_high(job),
        gray,
    }
}
