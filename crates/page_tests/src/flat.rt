// Flat: a bottom of one tone, whose layer number is whatever it was given.
ghost use Rattle.std.specs.Prelude.{◌≡◌};
ghost use Rattle.page_tests.specs.Flats.{flat_page};

use source::{Fault, Source, Spot};
use tone::Tone;

#[derive(Clone, Copy)]
pub struct Flat<T> {
    tone: T,
    width: u16,
    height: u16,
    layer: u16,
}

impl<T: Tone> Flat<T> {
    pub fn new(tone: T, width: u16, height: u16, layer: u16) -> Self
        ensures { (result.tone ≡ tone) × (result.width ≡ width) × (result.height ≡ height) × (result.layer ≡ layer) }
    {
        Flat {
            tone,
            width,
            height,
            layer,
        }
    }
}

impl<T: Tone> Source<T> for Flat<T> {
    ghost page = { λ s. flat_page s.tone s.width s.height s.layer };

    fn width(&self) -> u16 {
        self.width
    }

    fn height(&self) -> u16 {
        self.height
    }

    fn layer(&self) -> u16 {
        self.layer
    }

    fn at(&self, row: usize, column: usize) -> Result<T, Fault> {
        let spot = Spot {
            layer: self.layer,
            row,
            column,
        };
        spot.on_page(self.width, self.height)?;
        Ok(self.tone)
    }
}
