// Sheets: what the inks of a page are laid on.
//
// `Sheet` is the interface that jobs and the page writer are written against. `LentSheet` keeps its inks in memory that
// the caller lends, packed in bytes as a `Packing` says: one byte for each place, or one bit.
#![tactic(auto)]

pub mod bits;
pub mod bytes;
pub mod fault;
pub mod lent;
pub mod marks;
pub mod packings;
pub mod sheets;

// the largest page that a job takes; a sheet is made within these limits
pub const MAX_WIDTH: u16 = 1024;

pub const MAX_HEIGHT: u16 = 8192;

pub use bits::{BitSheet, Bits, row_bytes};
pub use bytes::{ByteSheet, Bytes};
pub use fault::SheetFault;
pub use lent::LentSheet;
pub use marks::{mark, mark_lent};
pub use packings::Packing;
pub use sheets::Sheet;

#[cfg(test)]
mod tests;
