// What reading a page file comes to, in a form that a table of cases can hold.
ghost use Rattle.page_tests.specs.Outcomes.{Judged};

use netpbm::{PageFault, PageTone, read};
use source::Source;

// The width and the height of the page, or the refusal.
pub type Outcome = Result<(u16, u16), PageFault>;

// What reading the bytes as a page of the kind T comes to.
pub fn judge<T: PageTone>(bytes: &[u8]) -> Outcome
    ensures { Judged T.PageTone.letter bytes.now result }
{
    let page = read::<T>(bytes)?;
    Ok((page.width(), page.height()))
}
