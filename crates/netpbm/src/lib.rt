// Netpbm pages: PGM (P5, grey) and PPM (P6, colour).
//
// `read` takes the bytes of a page file and answers a `Reader`, which is a source that stands on
// those bytes, or the fault with the byte where reading stopped.
#![tactic(auto)]

pub mod fault;
mod fields;
mod guard;
pub mod heading;
pub mod letters;
mod open;
pub mod page;
pub mod reader;

pub use fault::PageFault;
pub use letters::PageTone;
pub use page::Reader;
pub use reader::read;
