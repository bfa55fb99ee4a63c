// Sets of levels: n steps in each channel, `gap` apart, from 0 to 255. A set with a number of steps that its kind of tone
// does not list never exists.
ghost use Rattle.std.specs.Prelude.{◌≡◌, if◌then◌else◌, ⊤, true};
ghost use Rattle.ink.specs.LevelFacts.{Kind, Steps};
ghost use Rattle.ink.specs.LevelRules.{gap_of};

use std::alloc::AllocError;
use std::marker::PhantomData;
use tone::{Colour, Grey};

pub mod calls;
pub mod kinds;

pub use kinds::Levelled;

pub struct Levels<T: Levelled> {
    steps: u16,
    gap: u16,
    of: PhantomData<T>,
    ghost listed: { T.Levelled.lists steps ≡ true },
    ghost equal: { gap ≡ gap_of steps },
    // what the laws of the kind say, kept here since the meaning of a set cannot name a law
    ghost even: { Steps T.Tone.count steps },
    ghost sound: { Kind T.Tone.count T.Tone.value T.Tone.made },
}

pub type GreyLevels = Levels<Grey>;

pub type ColourLevels = Levels<Colour>;

impl<T: Levelled> Levels<T> {
    // The set of n steps; 2 steps where there is no set of n.
    pub fn new(n: u16) -> Levels<T>
        ensures { result.steps ≡ (if T.Levelled.lists n then n else 2) }
    {
        let steps = if T::lists(n) { n } else { 2 };
        Levels {
            steps,
            gap: 255 / (steps - 1),
            of: PhantomData,
        }
    }
}

// Not derived: `Clone` cannot be derived for a struct with a parameter and a ghost field.
impl<T: Levelled> Clone for Levels<T> {
    ghost is_clone = { λ s t. t ≡ s };

    ghost is_infallible = { λ _. ⊤ };

    fn clone(&self) -> Result<Self, AllocError> {
        Ok(*self)
    }
}

impl<T: Levelled> Copy for Levels<T> {}
