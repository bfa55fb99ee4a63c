// One byte for each place.
ghost use Rattle.std.proofs.Common.{rules};
ghost use Rattle.sheet.specs.Memory.{byte_packing};

use crate::lent::LentSheet;
use crate::packings::Packing;

pub struct Bytes;

// One byte for each place: cell (r, c) is byte r * width + c.
pub type ByteSheet<'a> = LentSheet<'a, Bytes>;

impl Packing for Bytes {
    ghost meaning = { byte_packing };

    ghost laws = { Prim.search rules };

    fn limit() -> u16 {
        256
    }

    fn stride(width: u16) -> usize {
        usize::from(width)
    }

    fn byte_of(column: usize) -> usize {
        column
    }

    fn ink_in(byte: u8, _column: usize) -> u8 {
        byte
    }

    fn with_ink(_byte: u8, _column: usize, number: u8) -> u8 {
        number
    }

    fn blank_byte(_width: u16, _j: usize) -> u8 {
        0
    }
}
