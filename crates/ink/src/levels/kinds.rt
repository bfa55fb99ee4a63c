// The kinds of tone that have levels, and the numbers of steps that each lists.
ghost use Rattle.std.specs.Prelude.{◌≡◌, Bool, true, ℕ, refl};
ghost use Rattle.ink.specs.LevelFacts.{Steps, colour_facts, grey_facts};
ghost use Rattle.ink.specs.LevelRules.{colour_steps, grey_steps};

use tone::{Colour, Grey, Tone};

pub trait Levelled: Tone {
    // the numbers of steps that there are sets for
    ghost lists: { ℕ → Bool };

    // Whether there is a set of n steps.
    fn lists(n: u16) -> bool
        ensures { result ≡ lists n };

    // black and white is always one
    ghost two: { lists 2 ≡ true };

    // there are at most 256 inks, and the gaps are equal
    ghost steps: { (n : ℕ) → lists n ≡ true → Steps Self.Tone.count n };
}

impl Levelled for Grey {
    ghost lists = { grey_steps };

    ghost two = { refl };

    ghost steps = { grey_facts };

    fn lists(n: u16) -> bool {
        matches!(n, 2 | 4 | 6 | 16 | 18 | 52 | 86 | 256)
    }
}

impl Levelled for Colour {
    ghost lists = { colour_steps };

    ghost two = { refl };

    ghost steps = { colour_facts };

    fn lists(n: u16) -> bool {
        matches!(n, 2 | 4 | 6)
    }
}
