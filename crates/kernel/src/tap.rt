// A tap of a kernel, the limits that every kernel keeps, and why a kernel is refused.
ghost use Rattle.std.specs.Prelude.{◌≡◌, ◌&&◌, Some};
ghost use Rattle.kernel.specs.Rules.{fits, rises};
ghost use Rattle.kernel.specs.Faults.{told, words};

use std::error::Error;
use std::fmt;

// How many rows down a tap may reach.
pub const ROWS_DOWN: u32 = 2;
// How many columns to either side a tap may reach.
pub const COLUMNS_ASIDE: i32 = 2;
// How many taps a kernel may have.
pub const MOST_TAPS: usize = 12;
// The largest divisor.
pub const MOST_DIVISOR: u32 = 256;

// A share of a cell's error: so many rows down, so many columns ahead in the
// direction in which the sending row runs, and the weight of the share.
#[derive(Clone, Copy, PartialEq, Eq, Debug)]
pub struct Tap {
    pub down: u32,
    pub ahead: i32,
    pub weight: u32,
}

impl Tap {
    // Whether the tap keeps reach and weight.
    fn fits_alone(&self) -> bool
        ensures { result ≡ fits self.now }
    {
        self.down <= ROWS_DOWN
            && (-COLUMNS_ASIDE..=COLUMNS_ASIDE).contains(&self.ahead)
            && (self.down > 0 || self.ahead >= 1)
            && self.weight >= 1
    }

    // Whether this tap comes after another: further down, or in the same row further ahead.
    fn comes_after(&self, before: &Tap) -> bool
        ensures { result ≡ rises before.now self.now }
    {
        (before.down, before.ahead) < (self.down, self.ahead)
    }

    // Whether the tap keeps every rule of a tap, where `before` is the tap just before it.
    pub(crate) fn keeps_rules(&self, before: &Tap) -> bool
        ensures { result ≡ (fits self.now && rises before.now self.now) }
    {
        self.fits_alone() && self.comes_after(before)
    }
}

// Why a divisor and taps are no kernel.
#[derive(Clone, Copy, PartialEq, Eq, Debug)]
pub enum KernelFault {
    // The divisor is not 1 to 256.
    Divisor,
    // There are not 1 to 12 taps.
    Count,
    // The tap of this index is the first that breaks reach, order or weight.
    Tap(usize),
    // The weights sum up to more than the divisor.
    Sum,
}

impl KernelFault {
    // The fault's number: users know refusals by their listed numbers.
    pub fn number(&self) -> u8
        ensures { result ≡ (told self.now).number }
    {
        match self {
            KernelFault::Divisor => 11,
            KernelFault::Count => 12,
            KernelFault::Tap(_) => 13,
            KernelFault::Sum => 14,
        }
    }
}

impl fmt::Display for KernelFault {
    ghost output = { λ f. Some (words f) };

    fn fmt<W: fmt::Write>(&self, f: &mut fmt::Formatter<W>) -> fmt::Result {
        match self {
            KernelFault::Divisor => write!(f, "the divisor is not 1 to 256"),
            KernelFault::Count => write!(f, "there are not 1 to 12 taps"),
            KernelFault::Tap(i) => write!(f, "tap {i} breaks reach, order or weight"),
            KernelFault::Sum => write!(f, "the weights sum up to more than the divisor"),
        }
    }
}

impl Error for KernelFault {}
