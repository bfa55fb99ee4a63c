// The calls of a list of inks.
ghost use Rattle.std.specs.Prelude.{◌≡◌, take, refl};
ghost use Rattle.ink.specs.Lists.{ink_list};
ghost use Rattle.ink.specs.Nearness.{Nearest};
ghost use Rattle.ink.specs.Values.{values};

use crate::list::InkList;
use crate::nearness::nearest_ink;
use crate::sets::InkSet;
use crate::values::limit_all;
use tone::Tone;

impl<'a, T> InkList<'a, T> {
    // The set of these tones; those after the 256th are left off. With none, the set has one ink of tone 0.
    pub fn new(inks: &'a [T]) -> InkList<'a, T>
        ensures { result.inks.now ≡ take 256 inks.now }
    {
        InkList {
            inks: &inks[..inks.len().min(256)],
        }
    }
}

impl<T: Tone> InkSet<T> for InkList<'_, T> {
    ghost meaning = { λ s. ink_list T.Tone.count T.Tone.value T.Tone.made s.inks.now s.few };

    ghost kind = { λ s. (refl, refl) };

    fn count(&self) -> u16 {
        // at most 256
        self.inks.len().max(1) as u16
    }

    fn tone(&self, number: u16) -> T {
        self.inks
            .get(usize::from(number))
            .or(self.inks.first())
            .copied()
            .unwrap_or_else(|| T::build([0; 3]))
    }

    fn choose(&self, wanted: [i32; 3]) -> u16
        ensures answer { result ≡ (ink_list T.Tone.count T.Tone.value T.Tone.made self.now.inks.now self.now.few).choice
            (values T.Tone.count wanted) }
        ensures nearest { Nearest (ink_list T.Tone.count T.Tone.value T.Tone.made self.now.inks.now self.now.few)
            (values T.Tone.count wanted) result }
    {
        let limited = limit_all(wanted);
        nearest_ink(&limited, self.inks)
    }

    fn spread(&self) -> Option<u8> {
        None
    }
}
