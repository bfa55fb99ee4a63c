// The rows of a bitmap.
ghost use Rattle.std.specs.Prelude.{◌≡◌, ◌<◌};
ghost use Rattle.sheet.specs.Memory.{byte_of_row, stride};
ghost use Rattle.writer.specs.Pages.{counted, bit_row};

use crate::printed::Printed;
use crate::rows::Rows;
use ink::InkSet;
use sheet::{Sheet, row_bytes};
use tone::Tone;

// Eight places to a byte, highest bit first, and zero bits at a row's end.
#[derive_where(Clone, Copy)]
pub(crate) struct PackedRows<'a, T, I, S>(pub(crate) Printed<'a, T, I, S>);

impl<T: Tone, I: InkSet<T>, S: Sheet> PackedRows<'_, T, I, S> {
    // Byte j of a row.
    fn byte_at(&self, row: usize, j: usize) -> u8
        requires { (row < (S.meaning self.now.0.sheet.now).height) × (j < 65536) }
        ensures { result ≡ byte_of_row (S.meaning self.now.0.sheet.now).width (counted T.count T.value (I.meaning self.now.0.inks.now) (S.meaning self.now.0.sheet.now)) row j }
    {
        let mut byte = 0;
        for k in 0..8 {
            byte = 2 * byte + u8::from(self.0.is_black(row, 8 * j + k));
        }
        byte
    }
}

impl<T: Tone, I: InkSet<T>, S: Sheet> Rows for PackedRows<'_, T, I, S> {
    ghost number = { λ rows. (S.meaning rows.0.sheet.now).height };

    ghost row_bytes = { λ rows. stride (S.meaning rows.0.sheet.now).width };

    ghost bytes = { λ rows. bit_row T.count T.value (I.meaning rows.0.inks.now) (S.meaning rows.0.sheet.now) };

    fn number(&self) -> u16 {
        self.0.sheet.height()
    }

    fn row_bytes(&self) -> usize {
        row_bytes(self.0.sheet.width())
    }

    fn put_row(&self, row: usize, out: &mut [u8]) {
        for (j, byte) in out.iter_mut().enumerate() {
            *byte = self.byte_at(row, j);
        }
    }
}
