// Writing a page into a buffer.
ghost use Rattle.std.specs.Prelude.{◌++◌};
ghost use Rattle.writer.specs.Back.{Back};
ghost use Rattle.writer.specs.Buffers.{Wrote};
ghost use Rattle.writer.specs.Pages.{pieces, written};
ghost use Rattle.writer.specs.Refusals.{numbered};

use crate::fault::WriteFault;
use crate::header::Header;
use crate::packed::PackedRows;
use crate::printed::Printed;
use crate::rows::{Rows, put_rows};
use crate::tones::ToneRows;
use ink::InkSet;
use netpbm::PageTone;
use sheet::Sheet;
use std::marker::PhantomData;

// Writes a page: its header, and the rows after it.
fn put_page<R: Rows>(header: &Header, rows: &R, buffer: &mut [u8]) -> Result<usize, WriteFault>
    ensures { Wrote (header.now ++ pieces (R.bytes rows.now) (R.number rows.now)) buffer.old buffer.new (numbered result) }
{
    let start = header.len();
    let length = start + usize::from(rows.number()) * rows.row_bytes();
    if buffer.len() < length {
        return Err(WriteFault::Short);
    }
    header.put(&mut buffer[..start]);
    put_rows(rows, &mut buffer[start..length]);
    Ok(length)
}

// Writes the page of the sheet's inks, and answers its length. A page of tones that has cells reads back, from the
// whole buffer, as the tones laid.
pub fn write<T: PageTone, I: InkSet<T>, S: Sheet>(
    inks: &I,
    sheet: &S,
    buffer: &mut [u8],
) -> Result<usize, WriteFault>
    ensures page { Wrote (written T.Tone.count T.Tone.value (I.InkSet.meaning inks.now) (S.Sheet.meaning sheet.now) T.PageTone.letter) buffer.old buffer.new (numbered result) }
    ensures back { Back T.PageTone.letter T.Tone.count T.Tone.value T.Tone.made (I.InkSet.meaning inks.now) (S.Sheet.meaning sheet.now) buffer.new (numbered result) }
{
    let (width, height) = (sheet.width(), sheet.height());
    let printed = Printed {
        inks,
        sheet,
        kind: PhantomData,
    };
    if printed.is_black_and_white() {
        let header = Header::new(b'4', width, height, "\n");
        put_page(&header, &PackedRows(printed), buffer)
    } else {
        let header = Header::new(T::page_letter(), width, height, "\n255\n");
        put_page(&header, &ToneRows(printed), buffer)
    }
}
