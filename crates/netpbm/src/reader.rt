// The reader: from the bytes of a page file to a source.
ghost use Rattle.std.specs.Prelude.{◌≡◌, ℕ, ◌+◌, ◌≤◌, length, slice_index};
ghost use Rattle.netpbm.specs.Headers.{Reading};
ghost use Rattle.netpbm.specs.Readers.{reader_page, came_to, StandsOn};
ghost use Rattle.tone.specs.Channels.{channels_of};

use crate::fault::PageFault;
use crate::letters::PageTone;
use crate::open::open;
use crate::page::Reader;
use source::{Fault, Source, Spot};
use std::array;
use std::marker::PhantomData;
use tone::Tone;

// Reads a page of the kind T, on any bytes.
pub fn read<'a, T: PageTone>(bytes: &'a [u8]) -> Result<Reader<'a, T>, PageFault>
    ensures outcome { Reading T.PageTone.letter bytes.now (came_to result) }
    ensures stands { StandsOn bytes.now result }
{
    let header = open(bytes, T::page_letter())?;
    Ok(Reader {
        bytes,
        header,
        kind: PhantomData,
    })
}

// The tone whose samples begin at a byte.
fn tone_at<T: Tone>(bytes: &[u8], from: usize) -> T
    requires { from + T.Tone.count ≤ length bytes.now }
    ensures { result ≡ T.Tone.made (channels_of T.Tone.count (λ i. slice_index bytes.now (from + i))) }
{
    // written out, as in `Tone::values`
    T::build(array::from_fn(|i| {
        if i < T::channels() {
            bytes[from + i]
        } else {
            0
        }
    }))
}

impl<'a, T: Tone> Source<T> for Reader<'a, T> {
    ghost page = { reader_page T.Tone.count T.Tone.made };

    fn width(&self) -> u16 {
        self.header.width
    }

    fn height(&self) -> u16 {
        self.header.height
    }

    fn layer(&self) -> u16 {
        0
    }

    fn at(&self, row: usize, column: usize) -> Result<T, Fault> {
        let spot = Spot {
            layer: 0,
            row,
            column,
        };
        spot.on_page(self.header.width, self.header.height)?;
        let n = T::channels();
        let skip = (row * usize::from(self.header.width) + column) * n;
        if self.header.raster > self.bytes.len()
            || self.bytes.len() - self.header.raster < skip + n
        {
            return Err(Fault::Missing(spot));
        }
        Ok(tone_at(self.bytes, self.header.raster + skip))
    }
}
