// The motifs that a session holds: their table, and their bytes in the store, one behind the other, with those of the one that is being read behind them.
ghost use Rattle.std.specs.Prelude.{◌≡◌};

use crate::motifs::Motifs;
use motif::Kept;
use names::operators::{BEGIN_SESSION, BEGIN_STREAM, END_STREAM, READ_STREAM};
use setting::Setting;
use trail::Walk;

// What a job is read with; the table of the motifs that are held, and what is kept of them; of the motif that is being read its name, and how many
// bytes of it are there.
#[derive(Clone, Copy)]
pub struct Keeping<'a> {
    set: Setting,
    table: [usize; 704],
    pub kept: Kept,
    pub name: &'a [u8],
    pub joined: usize,
}

// The data of ReadStream, which a walk has passed.
fn block<'a>(walk: &Walk<'a>) -> Option<&'a [u8]> {
    let first = walk.at.checked_sub(data::told(walk) as usize)?;
    walk.s.get(first..walk.at)
}

impl<'a> Keeping<'a> {
    // Nothing is held.
    pub fn none(set: Setting) -> Keeping<'a> {
        Keeping {
            set,
            table: [0; 704],
            kept: Kept { held: 0, used: 0 },
            name: b"",
            joined: 0,
        }
    }

    // BeginSession.
    fn begin_session(&mut self) {
        self.kept = Kept { held: 0, used: 0 };
        self.joined = 0;
    }

    // BeginStream: the motif that is being read has this name and no bytes yet.
    fn begin_stream(&mut self, name: &'a [u8]) {
        self.name = name;
        self.joined = 0;
    }

    // ReadStream: its data are joined to the motif that is being read.
    fn read_stream(&mut self, walk: &Walk, store: &mut [u8]) {
        if let Some(block) = block(walk) {
            buffer::join(block, store, self.kept.used.saturating_add(self.joined));
            self.joined = self.joined.saturating_add(block.len());
        }
    }

    // EndStream: the motif that was read is held, or replaces the one that its name holds.
    fn end_stream(&mut self, store: &mut [u8]) {
        let kept = self.kept;
        let joined = self.joined;
        self.joined = 0;
        let Some(bytes) = store.get(kept.used..kept.used.saturating_add(joined)) else {
            return;
        };
        if let Ok(made) = stream::judge_motif(bytes, self.set, &self.table, kept.held) {
            self.kept = holding::hold(
                store,
                &mut self.table,
                self.set,
                self.name,
                kept,
                joined,
                made,
            );
        }
    }

    // What the operator of the job that a walk has passed makes of the motifs held.
    pub fn keep(&mut self, walk: &Walk<'a>, store: &mut [u8]) {
        match walk.tag {
            Some(BEGIN_SESSION) => self.begin_session(),
            Some(BEGIN_STREAM) => self.begin_stream(walk.name()),
            Some(READ_STREAM) => self.read_stream(walk, store),
            Some(END_STREAM) => self.end_stream(store),
            _ => {}
        }
    }

    // The motifs that are held, with the store that has their bytes.
    pub fn motifs<'b>(&'b self, store: &'b [u8]) -> Motifs<'b>
        ensures table { result.table.now ≡ self.now.table }
        ensures many { result.many ≡ self.now.kept.held }
        ensures store { result.store.now ≡ store.now }
    {
        Motifs {
            table: &self.table,
            many: self.kept.held,
            store,
        }
    }
}
