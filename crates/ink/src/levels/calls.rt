// The calls of a set of levels. The levels of an ink are the digits of its number, so that of three channels ink
// (r * n + g) * n + b has the levels r, g and b.
ghost use Rattle.std.specs.Prelude.{◌≡◌, ◌<◌, ◌^◌, length, map, refl};
ghost use Rattle.ink.specs.LevelRules.{level_values, levels_choice};
ghost use Rattle.ink.specs.Levels.{levels};
ghost use Rattle.ink.specs.Nearness.{Nearest};
ghost use Rattle.ink.specs.Values.{limited, values};

use crate::levels::{Levelled, Levels};
use crate::sets::InkSet;
use crate::steps::{nearest_level, quotient};

impl<T: Levelled> Levels<T> {
    // The channel values of an ink, from the last channel back; the places past the last channel hold 0.
    fn channel_values(&self, ink: u16) -> [u8; 3]
        requires { ink < self.now.steps ^ T.Tone.count }
        ensures { result ≡ level_values self.now.steps T.Tone.count ink }
    {
        let mut values = [0; 3];
        let mut high = ink;
        // counted: of what is written through `iter_mut().rev()`, which was tried, a proof knows nothing; levels are bytes
        for i in (1..T::channels()).rev() {
            let rest = high;
            high = quotient(rest, self.steps);
            values[i] = ((rest - high * self.steps) * self.gap) as u8;
        }
        values[0] = (high * self.gap) as u8;
        values
    }

    // The ink that has the nearest level to each value, of which there is one for each channel.
    fn nearest_levels(&self, wanted: &[i32]) -> u16
        requires { length wanted.now ≡ T.Tone.count }
        ensures { result ≡ levels_choice self.now.steps T.Tone.count (map limited wanted.now) }
    {
        let mut ink = 0;
        for value in wanted {
            ink = ink * self.steps + nearest_level(*value, self.gap);
        }
        ink
    }
}

impl<T: Levelled> InkSet<T> for Levels<T> {
    ghost meaning = { λ s. levels s.sound s.steps s.even };

    ghost kind = { λ s. (refl, refl) };

    fn count(&self) -> u16 {
        // at most 3
        self.steps.pow(T::channels() as u32)
    }

    fn tone(&self, number: u16) -> T {
        let ink = if number < self.count() { number } else { 0 };
        let values = self.channel_values(ink);
        T::build(values)
    }

    fn choose(&self, wanted: [i32; 3]) -> u16
        ensures answer { result ≡ (levels self.now.sound self.now.steps self.now.even).choice (values T.Tone.count wanted) }
        ensures nearest { Nearest (levels self.now.sound self.now.steps self.now.even) (values T.Tone.count wanted) result }
    {
        self.nearest_levels(&wanted[..T::channels()])
    }

    fn spread(&self) -> Option<u8> {
        // at most 127
        Some((self.gap / 2) as u8)
    }
}
