// Crop: a window of the page below, cut to that page.
ghost use Rattle.std.specs.Prelude.{◌≡◌, ℕ, ◌-◌, ◌≤◌, min};
ghost use Rattle.source.specs.Layers.{cropped};

use crate::fault::{Fault, Spot};
use crate::layer::layer_above;
use crate::sources::Source;
use tone::Tone;

// `height` rows and `width` columns from row `top` and column `left` on.
#[derive(Clone, Copy, PartialEq, Eq, Debug)]
pub struct Window {
    pub top: usize,
    pub left: usize,
    pub height: usize,
    pub width: usize,
}

#[derive(Drop)]
pub struct Crop<S> {
    below: S,
    window: Window,
}

impl<S> Crop<S> {
    pub fn new(below: S, window: Window) -> Self
        ensures { (result.below ≡ below) × (result.window ≡ window) }
    {
        Crop { below, window }
    }
}

// How much of a window that wants `wanted` from `from` on lies within `length`.
fn cut(wanted: usize, from: usize, length: u16) -> u16
    ensures { result ≡ min wanted (length - from) }
{
    // at most `length`
    wanted.min(usize::from(length).saturating_sub(from)) as u16
}

impl<T: Tone, S: Source<T>> Source<T> for Crop<S> {
    ghost page = { λ s. cropped s.window.top s.window.left s.window.height s.window.width (S.Source.page s.below) };

    fn width(&self) -> u16 {
        cut(self.window.width, self.window.left, self.below.width())
    }

    fn height(&self) -> u16 {
        cut(self.window.height, self.window.top, self.below.height())
    }

    fn layer(&self) -> u16 {
        layer_above(self.below.layer())
    }

    fn at(&self, row: usize, column: usize) -> Result<T, Fault> {
        let Window {
            top,
            left,
            height,
            width,
        } = self.window;
        let layer = layer_above(self.below.layer());
        let spot = Spot { layer, row, column };
        let width = cut(width, left, self.below.width());
        let height = cut(height, top, self.below.height());
        spot.on_page(width, height)?;
        self.below.at(top + row, left + column)
    }
}
