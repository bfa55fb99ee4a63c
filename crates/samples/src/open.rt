// Opens a page file, whose letters say which kind of page it is.
ghost use Rattle.samples.specs.Opening.{OpenedAs};

use netpbm::{PageFault, Reader, read};
use tone::{Colour, Grey};

// A page of either kind.
#[derive(Clone, Copy)]
pub enum AnyPage<'a> {
    Grey(Reader<'a, Grey>),
    Colour(Reader<'a, Colour>),
}

// The page, or the refusal; bytes that begin with the letters of neither kind are refused as a colour page.
pub fn open_page<'a>(bytes: &'a [u8]) -> Result<AnyPage<'a>, PageFault>
    ensures { OpenedAs bytes.now result }
{
    match read(bytes) {
        Err(PageFault::Letters) => read(bytes).map(AnyPage::Colour),
        grey => grey.map(AnyPage::Grey),
    }
}
