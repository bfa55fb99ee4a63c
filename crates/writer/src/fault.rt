// Why a page is not written.
ghost use Rattle.std.specs.Prelude.{◌≡◌, Some, codes};
ghost use Rattle.writer.specs.Refusals.{fault_number};

use std::error::Error;
use std::fmt;

#[derive(Clone, Copy, PartialEq, Eq, Debug)]
pub enum WriteFault {
    // 19: the buffer is too short for the page
    Short,
}

impl WriteFault {
    // The fault's number: users know refusals by their listed numbers.
    pub fn number(&self) -> u8
        ensures { result ≡ fault_number self.now }
    {
        match self {
            WriteFault::Short => 19,
        }
    }
}

impl fmt::Display for WriteFault {
    ghost output = { λ _. Some (codes "refusal 19: the buffer is too short for the page") };

    fn fmt<W: fmt::Write>(&self, f: &mut fmt::Formatter<W>) -> fmt::Result {
        match self {
            WriteFault::Short => write!(f, "refusal 19: the buffer is too short for the page"),
        }
    }
}

impl Error for WriteFault {}
