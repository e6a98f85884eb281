// The column of the held motifs in the order of their names.
ghost use Rattle.std.specs.Prelude.{◌≡◌, ◌+◌, ◌≤◌, ◌<◌, length};
ghost use Rattle.key.specs.Keys.{key_of};
ghost use Rattle.key.specs.Views.{key_as};
ghost use Rattle.motif.specs.Before.{before};
ghost use Rattle.motif.specs.Held.{key_in};
ghost use Rattle.motif.specs.Search.{place_of, put_in, entered_in};

use crate::held::{ORDER, ROW};
use key::{Key, key_of};
use names::limits::MOTIFS_MOST;

// The name of row i stands before a name: by the first eight bytes, by the next eight, by the length.
fn is_before(motifs: &[usize; 704], i: usize, key: Key) -> bool
    requires { i < 64 }
    ensures { result ≡ before (key_in motifs.now i) (key_as key) }
{
    let row = (motifs[i * ROW], motifs[i * ROW + 1], motifs[i * ROW + 2]);
    row < (key.first, key.next, key.long)
}

// The first of n places whose name is not before a name, by halving.
// Written out, since `motifs_after` of `enter` names the place also where a column is not sorted, of which `partition_point` says nothing.
pub(crate) fn place_of(motifs: &[usize; 704], n: usize, key: Key) -> usize
    requires { n ≤ 64 }
    ensures upper_bound { result ≤ n }
    ensures value { result ≡ place_of motifs.now (key_as key) n }
{
    let mut lo: usize = 0;
    let mut hi = n;
    while lo < hi {
        let mid = lo + (hi - lo) / 2;
        let i = motifs[ORDER + mid] % MOTIFS_MOST;
        if is_before(motifs, i, key) {
            lo = mid + 1;
        } else {
            hi = mid;
        }
    }
    lo
}

// A number put in at a place; so many from there on move up by one.
fn put_in(s: &mut [usize], at: usize, count: usize, v: usize)
    requires { at + count < length s.old }
    ensures { s.new ≡ put_in s.old at count v }
{
    s.copy_within(at..at + count, at + 1);
    s[at] = v;
}

// Row n, of a name that the n rows before it have not, comes into the column at its place; nothing is done where there is no such row.
#[tactic(auto, unfolding(crate::specs::Search::entered_in))]
pub fn enter(motifs: &mut [usize; 704], n: usize, name: &[u8])
    ensures motifs_len_unchanged { length motifs.new ≡ length motifs.old }
    ensures motifs_after { motifs.new ≡ entered_in motifs.old n (key_of name.now) }
{
    if MOTIFS_MOST <= n {
        return;
    }
    let key = key_of(name);
    let place = place_of(motifs, n, key);
    put_in(motifs, ORDER + place, n - place, n);
}
