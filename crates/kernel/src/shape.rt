// A kernel, with its rules in its type: no value of this type breaks one.
ghost use Rattle.std.specs.Prelude.{◌≡◌, ◌≤◌, true, take};
ghost use Rattle.kernel.specs.Rules.{most_taps, shape, valid};

use crate::tap::{MOST_TAPS, Tap};

// The divisor, and the first `len` taps; the places after them mean nothing.
// An array with its length, since a kernel is Copy and allocates nothing, and no vector of the kit is Copy.
// No model: it would have to give all fields back, as Copy asks, and the places after the taps are not told.
#[derive(Clone, Copy, Debug)]
pub struct Kernel {
    pub(crate) divisor: u32,
    pub(crate) taps: [Tap; MOST_TAPS],
    pub(crate) len: usize,
    ghost within: { len ≤ most_taps },
    ghost lawful: { valid (shape divisor (take len taps)) ≡ true },
}
