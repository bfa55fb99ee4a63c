// Why the bytes are no page.
ghost use Rattle.std.specs.Prelude.{◌≡◌, ◌++◌, Some, codes, decimal};
ghost use Rattle.netpbm.specs.Refusals.{told};

use std::error::Error;
use std::fmt;

// A field's fault has the byte where that field began, at its white space.
#[derive(Clone, Copy, PartialEq, Eq, Debug)]
pub enum PageFault {
    // 15: the first two bytes are not those of a page of this kind; reading stopped at byte 0
    Letters,
    // 16: white space or a number is wrong
    Field(usize),
    // 17: the width or the height is not 1 to 65,535
    Size(usize),
    // 18: the maximum is not 255
    Maximum(usize),
}

impl PageFault {
    // The fault's number: users know refusals by their listed numbers.
    pub fn number(&self) -> u8
        ensures { result ≡ (told self.now).number }
    {
        match self {
            PageFault::Letters => 15,
            PageFault::Field(_) => 16,
            PageFault::Size(_) => 17,
            PageFault::Maximum(_) => 18,
        }
    }

    // The byte at which reading stopped.
    pub fn byte(&self) -> usize
        ensures { result ≡ (told self.now).byte }
    {
        match self {
            PageFault::Letters => 0,
            PageFault::Field(at) | PageFault::Size(at) | PageFault::Maximum(at) => *at,
        }
    }
}

// The fault's number and byte.
impl fmt::Display for PageFault {
    ghost output = { λ e. Some (decimal (told e).number ++ codes " at byte " ++ decimal (told e).byte) };

    fn fmt<W: fmt::Write>(&self, f: &mut fmt::Formatter<W>) -> fmt::Result {
        write!(f, "{} at byte {}", self.number(), self.byte())
    }
}

impl Error for PageFault {}
