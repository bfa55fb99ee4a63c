// The chart: a page without a file, whose samples rise from left to right.
ghost use Rattle.std.specs.Prelude.{◌≡◌, ℕ, ◌<◌, ◌≤◌};
ghost use Rattle.tone.specs.Channels.{channels_of};
ghost use Rattle.source.specs.Charts.{chart_sample, chart_page};

use crate::fault::{Fault, Spot};
use crate::sources::Source;
use std::array;
use std::marker::PhantomData;
use tone::Tone;

#[derive(Clone, Copy)]
pub struct Chart<T> {
    width: u16,
    height: u16,
    kind: PhantomData<T>,
}

impl<T: Tone> Chart<T> {
    pub fn new(width: u16, height: u16) -> Self
        ensures { (result.width ≡ width) × (result.height ≡ height) }
    {
        Chart {
            width,
            height,
            kind: PhantomData,
        }
    }
}

// The sample of a column: 255 × column / (width - 1), rounded down.
fn sample(width: u16, column: usize) -> u8
    requires { column < width }
    ensures { result ≡ chart_sample width column }
{
    if width <= 1 {
        0
    } else {
        // at most 255
        (255 * column / (usize::from(width) - 1)) as u8
    }
}

// The tone with one value in all its channels.
fn uniform<T: Tone>(value: u8) -> T
    ensures { result ≡ T.Tone.made (channels_of T.Tone.count (λ i. value)) }
{
    // written out, as in `Tone::values`
    T::build(array::from_fn(|i| { if i < T::channels() { value } else { 0 } }))
}

impl<T: Tone> Source<T> for Chart<T> {
    ghost page = { λ s. chart_page T.Tone.count T.Tone.made s.width s.height };

    fn width(&self) -> u16 {
        self.width
    }

    fn height(&self) -> u16 {
        self.height
    }

    fn layer(&self) -> u16 {
        0
    }

    fn at(&self, row: usize, column: usize) -> Result<T, Fault> {
        let spot = Spot {
            layer: 0,
            row,
            column,
        };
        spot.on_page(self.width, self.height)?;
        Ok(uniform(sample(self.width, column)))
    }
}
