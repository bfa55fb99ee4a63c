// What a question for a place comes to, in a form that a table of cases can hold.
ghost use Rattle.std.specs.Prelude.{◌≡◌};
ghost use Rattle.source.specs.Faults.{said};
ghost use Rattle.source.specs.Pages.{answer};
ghost use Rattle.page_tests.specs.Seeing.{seen_of};

use source::{Fault, Source};
use tone::Tone;

// The samples of the tone, 0 past its last channel, or the fault.
pub type Seen = Result<[u8; 3], Fault>;

// What a source answers at a place.
pub fn ask<T: Tone, S: Source<T>>(source: &S, row: usize, column: usize) -> Seen
    ensures { said result ≡ seen_of T.Tone.count T.Tone.value (answer (S.Source.page source.now) row column) }
{
    let tone = source.at(row, column)?;
    Ok(tone.values())
}
