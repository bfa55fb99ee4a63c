// The rows of a page of tones.
ghost use Rattle.std.specs.Prelude.{◌≡◌, ◌*◌, length};
ghost use Rattle.writer.specs.Pages.{bytes_of, tone_row};

use crate::printed::Printed;
use crate::rows::Rows;
use ink::InkSet;
use sheet::Sheet;
use tone::Tone;

// The channels of the tone at each place.
#[derive_where(Clone, Copy)]
pub(crate) struct ToneRows<'a, T, I, S>(pub(crate) Printed<'a, T, I, S>);

impl<T: Tone, I: InkSet<T>, S: Sheet> Rows for ToneRows<'_, T, I, S> {
    ghost number = { λ rows. (S.meaning rows.0.sheet.now).height };

    ghost row_bytes = { λ rows. (S.meaning rows.0.sheet.now).width * T.count };

    ghost bytes = { λ rows. tone_row T.count T.value (I.meaning rows.0.inks.now) (S.meaning rows.0.sheet.now) };

    fn number(&self) -> u16 {
        self.0.sheet.height()
    }

    fn row_bytes(&self) -> usize {
        usize::from(self.0.sheet.width()) * T::channels()
    }

    fn put_row(&self, row: usize, out: &mut [u8]) {
        let n = T::channels();
        // not `chunks_exact_mut`, of which a proof knows only how long the slice is afterwards
        for column in 0..usize::from(self.0.sheet.width()) {
            let tone = self.0.tone_at(row, column);
            put_tone(&tone, &mut out[column * n..(column + 1) * n]);
        }
    }
}

// Writes the channels of a tone over the whole slice.
fn put_tone<T: Tone>(tone: &T, out: &mut [u8])
    requires { length out.old ≡ T.count }
    ensures { out.new ≡ bytes_of (T.value tone.now) T.count }
{
    for (i, byte) in out.iter_mut().enumerate() {
        *byte = tone.channel(i);
    }
}
