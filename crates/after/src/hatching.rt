// Numbers of patterns that are defined after an operator.
ghost use Rattle.scope.specs.Data.{Image};
ghost use Rattle.scope.specs.Motif.{hatching};
ghost use Rattle.order.specs.Pictures.{hatch_as, picture_as};
ghost use Rattle.after.specs.Hatching.{Defines};

use names::operators::END_RAST_PATTERN;
use order::{Hatch, Picture};

// EndRastPattern defines a pattern, for the session or for the page.
fn define_hatch(patterns: &mut [u16; 4487], hatch: Hatch)
    ensures { (i : Image) → Defines patterns.old 0xb5 (hatching (hatch_as hatch) i) patterns.new }
{
    if hatch.session {
        patterns::define(patterns, pattern_rows::SESSION, hatch.number);
    } else {
        patterns::define(patterns, pattern_rows::PAGE, hatch.number);
    }
}

// EndRastPattern defines the pattern that is open; another operator defines none.
pub(crate) fn define_open(patterns: &mut [u16; 4487], tag: u8, picture: Picture)
    ensures { Defines patterns.old tag (picture_as picture) patterns.new }
{
    if tag != END_RAST_PATTERN {
        return;
    }
    match picture {
        Picture::Nothing => {}
        Picture::Being(_) => {}
        Picture::Hatching(_, hatch) => define_hatch(patterns, order::unpacked(hatch)),
    }
}
