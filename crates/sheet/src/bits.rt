// One bit for each place: rows as PBM has them, highest bit first, each row filled to a whole byte with zero bits.
// Ink 0 is bit 1, black.
ghost use Rattle.std.specs.Prelude.{◌≡◌};
ghost use Rattle.sheet.specs.BitFacts.{bit_laws};
ghost use Rattle.sheet.specs.Memory.{bit_packing, stride};

use crate::lent::LentSheet;
use crate::packings::Packing;

pub struct Bits;

// One bit for each place, in rows as PBM has them.
pub type BitSheet<'a> = LentSheet<'a, Bits>;

// The bytes of a row of packed bits.
pub fn row_bytes(width: u16) -> usize
    ensures { result ≡ stride width }
{
    usize::from(width).div_ceil(8)
}

impl Packing for Bits {
    ghost meaning = { bit_packing };

    ghost laws = { bit_laws };

    fn limit() -> u16 {
        2
    }

    fn stride(width: u16) -> usize {
        row_bytes(width)
    }

    fn byte_of(column: usize) -> usize {
        column / 8
    }

    fn ink_in(byte: u8, column: usize) -> u8 {
        1 - (byte >> (7 - column % 8)) % 2
    }

    fn with_ink(byte: u8, column: usize, number: u8) -> u8 {
        // not `1 << (7 - column % 8)`, whose complement is made by a rotation, which is slower
        let mask = 128u8 >> (column % 8);
        if number == 0 {
            byte | mask
        } else {
            byte & !mask
        }
    }

    fn blank_byte(width: u16, j: usize) -> u8 {
        match usize::from(width).saturating_sub(j.saturating_mul(8)) {
            0 => 0,
            1 => 0b1000_0000,
            2 => 0b1100_0000,
            3 => 0b1110_0000,
            4 => 0b1111_0000,
            5 => 0b1111_1000,
            6 => 0b1111_1100,
            7 => 0b1111_1110,
            _ => 0b1111_1111,
        }
    }
}
