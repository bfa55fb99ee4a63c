// The interface of a source.
ghost use Rattle.std.specs.Prelude.{◌≡◌};
ghost use Rattle.source.specs.Pages.{Page, answer};
ghost use Rattle.source.specs.Faults.{said};

use crate::fault::Fault;
use tone::Tone;

pub trait Source<T: Tone> {
    // the page that the source shows
    ghost page: { Self → Page T };

    fn width(&self) -> u16
        ensures { result ≡ (page self.now).width };

    fn height(&self) -> u16
        ensures { result ≡ (page self.now).height };

    // The number of the layer, 0 at the bottom.
    fn layer(&self) -> u16
        ensures { result ≡ (page self.now).layer };

    // The tone at a place, or the fault. Row and column come from loops of their own, so that a pair of them would only be
    // packed at each call and unpacked here.
    fn at(&self, row: usize, column: usize) -> Result<T, Fault>
        ensures { said result ≡ answer (page self.now) row column };
}
