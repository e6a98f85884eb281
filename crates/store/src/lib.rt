// The store of motifs: one is replaced in its place, and those behind it move up or down.
#![tactic(auto)]

ghost use Rattle.std.specs.Prelude.{◌≡◌, reverse as reversed};
ghost use Rattle.store.specs.Replaced.{replaced};

// The bytes from the last to the first.
pub fn reverse(part: &mut [u8])
    ensures { part.new ≡ reversed part.old }
{
    part.reverse();
}

// The old bytes from start on, of the used ones, make room for the new ones, which stand right behind used.
pub fn replace(work: &mut [u8], start: usize, old: usize, used: usize, new: usize)
    ensures { work.new ≡ replaced work.old start old used new }
{
    if used < start || used - start < old {
        return;
    }
    if work.len() < used || work.len() - used < new {
        return;
    }
    let end = used + new;
    let middle = start + new;
    let behind = end - old;
    reverse(&mut work[start..end]);
    reverse(&mut work[start..middle]);
    reverse(&mut work[middle..behind]);
}
