// A motif while it is read: its blocks are joined, and at EndStream it is held.
ghost use Rattle.std.specs.Prelude.{◌≡◌, true, List, ℕ, ◌+◌, ◌≤◌, length, take, drop};
ghost use Rattle.scope.specs.Motif.{Motif, Held, held_as};
ghost use Rattle.setting.specs.Views.{setting_as};
ghost use Rattle.motif.specs.Held.{Keeps};
ghost use Rattle.gathering.specs.Afterwards.{Stays, After};
ghost use Rattle.gathering.specs.Block.{block_joined, Joins};
ghost use Rattle.gathering.specs.Selected.{OwnKept};
ghost use Rattle.place.specs.declared.place.Busy.TheVariants as busy_is;
ghost use Rattle.place.specs.declared.place.Place.TheVariants as place_is;

use early::Early;
use motif::Kept;
use names::limits::STORE_MOST;
use names::operators::READ_STREAM;
use page::page::Page;
use place::{Busy, Place};
use reader::Operator;
use setting::Setting;

// A motif that is being read, in a session with this source and these motifs: place and length of its name in the job, and how many bytes are joined.
#[derive(Clone, Copy)]
pub struct Stream {
    pub opened: bool,
    pub kept: Kept,
    pub first: usize,
    pub count: usize,
    pub joined: usize,
}

// So many bytes from a place on lie within a length.
fn lies(len: usize, first: usize, count: usize) -> bool
    ensures count_bound { result ≡ true → first + count ≤ len }
    ensures value { first + count ≤ len → result ≡ true }
{
    first <= len && count <= len - first
}

// Whether so many bytes of a job from a place on lie within its length, and there is room for them behind those held and those joined.
fn fits(len: usize, first: usize, count: usize, used: usize, joined: usize) -> bool
    ensures count_bound { result ≡ true → (first + count ≤ len) × (used + joined + count ≤ 16384) }
    ensures value { first + count ≤ len → used + joined + count ≤ 16384 → result ≡ true }
{
    lies(len, first, count)
        && used <= STORE_MOST
        && joined <= STORE_MOST - used
        && count <= STORE_MOST - used - joined
}

// ReadStream joins its data to what was read of the motif; the answer is how many bytes that makes.
fn join_block(job: &[u8], o: Operator, work: &mut [u8], used: usize, joined: usize) -> usize
    ensures work_after { work.new ≡ block_joined job.now o.first o.length (used + joined) work.old }
    ensures joins { Joins job.now o used joined work.old work.new result }
{
    let first = o.first;
    let count = o.length;
    if !fits(job.len(), first, count, used, joined) {
        return joined;
    }
    buffer::join(&job[first..first + count], work, used + joined);
    joined + count
}

// What the motif that was judged selects, kept in the row of its name.
fn keep_own(patterns: &mut [u16; 4487], motifs: &[usize; 704], held: usize, name: &[u8])
    ensures patterns_len_unchanged { length patterns.new ≡ length patterns.old }
    ensures own_kept { (ms : List Motif) (m : Motif) → Keeps motifs.now held ms → held_as name.now ms ≡ Held.is m
        → OwnKept patterns.old m.number patterns.new }
{
    if let Some(i) = motif::find(motifs, held, name) {
        patterns::keep(patterns, i);
    }
}

// EndStream: a valid motif becomes held under its name, or replaces the one held there; nothing else comes here.
fn ended(
    set: Setting,
    name: &[u8],
    early: Early,
    opened: bool,
    kept: Kept,
    joined: usize,
    work: &mut [u8],
    motifs: &mut [usize; 704],
    patterns: &mut [u16; 4487],
) -> Place
    ensures stays { Stays work.old motifs.old patterns.old work.new motifs.new patterns.new }
    ensures by_index { (job attrs : List ℕ) (o : Operator) (page : Page) (first count : ℕ) → take count (drop first job) ≡ name.now
        → (o.tag ≡ 0x5c → ⊥) → After job attrs (setting_as set) o early page work.old motifs.old patterns.old
        (place_is.Inside opened kept (busy_is.Reading first count joined)) work.new motifs.new patterns.new result }
{
    let Early::Held(made) = early else {
        return Place::Outside(false);
    };
    let after = holding::hold(work, motifs, set, name, kept, joined, made);
    keep_own(patterns, motifs, after.held, name);
    Place::Inside(opened, after, Busy::Resting)
}

// While a motif is read. Its name lies in the job.
pub fn reading_after(
    job: &[u8],
    set: Setting,
    o: Operator,
    early: Early,
    stream: Stream,
    work: &mut [u8],
    motifs: &mut [usize; 704],
    patterns: &mut [u16; 4487],
) -> Place
    ensures stays { Stays work.old motifs.old patterns.old work.new motifs.new patterns.new }
    ensures by_index { (attrs : List ℕ) (page : Page)
        → After job.now attrs (setting_as set) o early page work.old motifs.old patterns.old
        (place_is.Inside stream.opened stream.kept (busy_is.Reading stream.first stream.count stream.joined))
        work.new motifs.new patterns.new result }
{
    let opened = stream.opened;
    let kept = stream.kept;
    let first = stream.first;
    let count = stream.count;
    let joined = stream.joined;
    if o.tag == READ_STREAM {
        let more = join_block(job, o, work, kept.used, joined);
        return Place::Inside(opened, kept, Busy::Reading(first, count, more));
    }
    if !lies(job.len(), first, count) {
        return Place::Outside(false);
    }
    ended(
        set,
        &job[first..first + count],
        early,
        opened,
        kept,
        joined,
        work,
        motifs,
        patterns,
    )
}
