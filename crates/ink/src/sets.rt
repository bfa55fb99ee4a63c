// The interface of an ink set.
ghost use Rattle.std.specs.Prelude.{◌≡◌};
ghost use Rattle.ink.specs.Inks.{Inks, OfKind, ink_tone};
ghost use Rattle.ink.specs.Values.{values};

use tone::Tone;

pub trait InkSet<T: Tone> {
    // the inks with their tones, the choice for each value, and the spread
    ghost meaning: { Self → Inks T };

    // The number of inks, 1 to 256.
    fn count(&self) -> u16
        ensures { result ≡ (meaning self.now).number };

    // The tone of an ink; a number from `count` up counts as ink 0.
    fn tone(&self, number: u16) -> T
        ensures { result ≡ ink_tone (meaning self.now) number };

    // The ink for the values of the channels, each first limited to LOWEST..HIGHEST; values past the last channel
    // do not matter.
    fn choose(&self, wanted: [i32; 3]) -> u16
        ensures { result ≡ (meaning self.now).choice (values T.Tone.count wanted) };

    // A bound for the error of a choice, if the set has one.
    fn spread(&self) -> Option<u8>
        ensures { result ≡ (meaning self.now).spread };

    // the inks speak of the kind of tone T
    ghost kind: { (s : Self) → OfKind (meaning s) T.Tone.count T.Tone.value };
}
