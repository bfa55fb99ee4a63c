// Negative: the page below with 255 - x for each sample, where it is switched on.
ghost use Rattle.std.specs.Prelude.{◌≡◌, ℕ, ◌-◌};
ghost use Rattle.source.specs.Layers.{negative_tone, negated};

use crate::fault::{Fault, Spot};
use crate::layer::layer_above;
use crate::sources::Source;
use std::array;
use tone::Tone;

#[derive(Drop)]
pub struct Negative<S> {
    below: S,
    // a flag: the layer stands, with its number, in both states, and an enum would hold `below` twice
    on: bool,
}

impl<S> Negative<S> {
    // A layer over `below`; one that is off shows the page below as it is, and is still a layer.
    pub fn new(below: S, on: bool) -> Self
        ensures { (result.below ≡ below) × (result.on ≡ on) }
    {
        Negative { below, on }
    }
}

// The tone with 255 - x in each channel.
fn negative_of<T: Tone>(tone: T) -> T
    ensures { result ≡ negative_tone T.Tone.count T.Tone.value T.Tone.made tone }
{
    // written out, as in `Tone::values`
    T::build(array::from_fn(|i| {
        if i < T::channels() {
            255 - tone.channel(i)
        } else {
            0
        }
    }))
}

impl<T: Tone, S: Source<T>> Source<T> for Negative<S> {
    ghost page = { λ s. negated T.Tone.count T.Tone.value T.Tone.made s.on (S.Source.page s.below) };

    fn width(&self) -> u16 {
        self.below.width()
    }

    fn height(&self) -> u16 {
        self.below.height()
    }

    fn layer(&self) -> u16 {
        layer_above(self.below.layer())
    }

    fn at(&self, row: usize, column: usize) -> Result<T, Fault> {
        let layer = layer_above(self.below.layer());
        let spot = Spot { layer, row, column };
        spot.on_page(self.below.width(), self.below.height())?;
        let tone = self.below.at(row, column)?;
        Ok(if self.on { negative_of(tone) } else { tone })
    }
}
