// What the two kinds are as tones.
ghost use Rattle.page_tests.specs.Kinds.{pair_value, pair_made, marked_value, marked_made};
ghost use Rattle.std.proofs.Common.{rules};

use crate::kinds::{Marked, Pair};
use tone::Tone;

// Each kind proves the laws for itself, by the same search; a macro may not write an impl.
impl Tone for Pair {
    ghost count = { 2 };

    ghost value = { pair_value };

    ghost made = { pair_made };

    ghost some = { Prim.search rules };

    ghost few = { Prim.search rules };

    ghost byte = { Prim.search rules };

    ghost gives = { Prim.search rules };

    fn channels() -> usize {
        2
    }

    fn channel(&self, i: usize) -> u8 {
        match i {
            0 => self.first,
            1 => self.second,
            _ => 0,
        }
    }

    fn build(values: [u8; 3]) -> Self {
        Pair {
            first: values[0],
            second: values[1],
        }
    }
}

impl Tone for Marked {
    ghost count = { 1 };

    ghost value = { marked_value };

    ghost made = { marked_made };

    ghost some = { Prim.search rules };

    ghost few = { Prim.search rules };

    ghost byte = { Prim.search rules };

    ghost gives = { Prim.search rules };

    fn channels() -> usize {
        1
    }

    fn channel(&self, i: usize) -> u8 {
        match i {
            0 => self.light,
            _ => 0,
        }
    }

    fn build(values: [u8; 3]) -> Self {
        Marked {
            light: values[0],
            mark: 0,
        }
    }
}
