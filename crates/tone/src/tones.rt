// The interface of a kind of tone, and its two kinds here.
ghost use Rattle.std.specs.Prelude.{List, ◌≡◌, ℕ, ◌<◌, ◌≤◌, get_or};
ghost use Rattle.tone.specs.Channels.{channels_of};
ghost use Rattle.tone.specs.Kinds.{grey_value, grey_made, colour_value, colour_made};
ghost use Rattle.std.proofs.Common.{rules};

use crate::kinds::{Colour, Grey};
use std::array;

pub trait Tone: Sized + Copy {
    // the number of channels
    ghost count: { ℕ };
    // the value of a channel, below `count`
    ghost value: { Self → ℕ → ℕ };
    // the tone built from a list of channel values
    ghost made: { List ℕ → Self };

    fn channels() -> usize
        ensures { result ≡ count };

    fn channel(&self, i: usize) -> u8
        ensures { result ≡ value self.now i };

    // The tone whose channel i has the value `values[i]`; values past the last channel belong to no channel.
    fn build(values: [u8; 3]) -> Self
        ensures { result ≡ made values };

    // The values of all channels, and 0 in the places that belong to no channel.
    fn values(&self) -> [u8; 3]
        ensures { result ≡ channels_of count (value self.now) }
    {
        // written out where a tone is built, too: a public function over a closure would ask something of its caller
        array::from_fn(|i| {
            if i < Self::channels() {
                self.channel(i)
            } else {
                0
            }
        })
    }

    ghost some: { 1 ≤ count };

    ghost few: { count ≤ 3 };

    ghost byte: { (t : Self) (i : ℕ) → i < count → value t i ≤ 255 };

    ghost gives: { (v : List ℕ) (i : ℕ) → i < count → get_or v i 0 ≤ 255 → value (made v) i ≡ get_or v i 0 };
}

// Each kind proves the laws for itself, by the same search; a macro may not write an impl.
impl Tone for Grey {
    ghost count = { 1 };

    ghost value = { grey_value };

    ghost made = { grey_made };

    ghost some = { Prim.search rules };

    ghost few = { Prim.search rules };

    ghost byte = { Prim.search rules };

    ghost gives = { Prim.search rules };

    fn channels() -> usize {
        1
    }

    fn channel(&self, i: usize) -> u8 {
        match i {
            0 => self.light,
            _ => 0,
        }
    }

    fn build(values: [u8; 3]) -> Self {
        let [light, ..] = values;
        Grey { light }
    }
}

impl Tone for Colour {
    ghost count = { 3 };

    ghost value = { colour_value };

    ghost made = { colour_made };

    ghost some = { Prim.search rules };

    ghost few = { Prim.search rules };

    ghost byte = { Prim.search rules };

    ghost gives = { Prim.search rules };

    fn channels() -> usize {
        3
    }

    fn channel(&self, i: usize) -> u8 {
        match i {
            0 => self.red,
            1 => self.green,
            2 => self.blue,
            _ => 0,
        }
    }

    fn build(values: [u8; 3]) -> Self {
        let [red, green, blue] = values;
        Colour { red, green, blue }
    }
}
