// The page writer: from a sheet of inks to the bytes of a Netpbm page.
//
// Two grey inks, black then white, make a bitmap (P4) with packed rows. Any other set makes a page of the
// inks' tones, P5 for grey and P6 for colour.
#![tactic(auto)]

pub mod fault;
mod header;
mod packed;
mod printed;
mod rows;
mod tones;
pub mod writing;

pub use fault::WriteFault;
pub use writing::write;
