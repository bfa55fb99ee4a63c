// The header of a page: its letters and its three fields.
ghost use Rattle.std.specs.Prelude.{◌≡◌};
ghost use Rattle.netpbm.specs.Headers.{Reading};
ghost use Rattle.netpbm.specs.Refusals.{judged};

use crate::fault::PageFault;
use crate::fields::Fields;
use crate::heading::Header;

// Reads the header of a page whose second letter is `letter`.
pub(crate) fn open(bytes: &[u8], letter: u8) -> Result<Header, PageFault>
    ensures { Reading letter bytes.now (judged result) }
{
    if !bytes.starts_with(&[b'P', letter]) {
        return Err(PageFault::Letters);
    }
    let mut fields = Fields { bytes, place: 2 };
    let width = fields.size()?;
    let height = fields.size()?;
    fields.maximum()?;
    Ok(Header {
        width,
        height,
        raster: fields.place,
    })
}
