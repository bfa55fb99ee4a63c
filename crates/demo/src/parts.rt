// What the stages give.
ghost use Rattle.std.specs.Prelude.{◌≡◌, Some};
ghost use Rattle.demo.specs.Stops.{stopped_text};
ghost use Rattle.demo.specs.declared.parts.Stopped.TheVariants.{NoMemory, NoPage, Unwritten};

use netpbm::PageFault;
use preview::View;
use std::alloc::AllocError;
use std::error::Error;
use std::fmt;
use writer::WriteFault;

// What each stage shows: the page as it is read, the window of it, and the window's negative; and the bytes of the page
// that is printed from the negative.
#[derive(Drop)]
pub struct Stages {
    pub page: View,
    pub window: View,
    pub negative: View,
    pub printed: Vec<u8>,
}

// Why there is nothing to show.
#[derive(Clone, Copy, PartialEq, Eq, Debug)]
pub enum Stopped {
    NoPage(PageFault),
    // the page is larger than a sheet can be, or has no place
    NoSheet,
    Unwritten(WriteFault),
    NoMemory,
}

impl fmt::Display for Stopped {
    ghost output = { λ s. Some (stopped_text s) };

    fn fmt<W: fmt::Write>(&self, f: &mut fmt::Formatter<W>) -> fmt::Result {
        match self {
            Stopped::NoPage(fault) => write!(f, "no page: fault {fault}"),
            Stopped::NoSheet => write!(f, "no sheet of that size"),
            Stopped::Unwritten(fault) => write!(f, "not written: {fault}"),
            Stopped::NoMemory => write!(f, "no memory"),
        }
    }
}

impl Error for Stopped {}

impl From<PageFault> for Stopped {
    ghost from_gives = { λ f s. s ≡ NoPage f };

    fn from(fault: PageFault) -> Self {
        Stopped::NoPage(fault)
    }
}

impl From<WriteFault> for Stopped {
    ghost from_gives = { λ f s. s ≡ Unwritten f };

    fn from(fault: WriteFault) -> Self {
        Stopped::Unwritten(fault)
    }
}

impl From<AllocError> for Stopped {
    ghost from_gives = { λ _ s. s ≡ NoMemory };

    fn from(_: AllocError) -> Self {
        Stopped::NoMemory
    }
}
