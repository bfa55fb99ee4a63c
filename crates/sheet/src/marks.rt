// Code written for any sheet, and callers that lend it memory.
//
// `mark` knows its sheet by the interface alone. `mark_lent` lends memory to a sheet, passes the sheet to `mark`, and
// its contract says what each byte of that memory is afterwards: pad bits and bytes past the sheet included.
ghost use Rattle.std.specs.Prelude.{◌≡◌, ℕ, ◌*◌, cond, length, drop};
ghost use Rattle.sheet.specs.Limits.{fits};
ghost use Rattle.sheet.specs.Marks.{Marked, marked_below};
ghost use Rattle.sheet.specs.Memory.{blank, lent_memory};

use crate::lent::LentSheet;
use crate::packings::Packing;
use crate::sheets::Sheet;

// Lays ink 1 at (row, column) and at (column, row), where these are on the sheet.
pub fn mark<S: Sheet>(sheet: &mut S, row: usize, column: usize)
    ensures inks { Marked (S.Sheet.meaning sheet.old) (S.Sheet.meaning sheet.new) row column }
    ensures keeps { (S.Sheet.lent sheet.new ≡ S.Sheet.lent sheet.old)
        × (S.Sheet.besides sheet.new ≡ S.Sheet.besides sheet.old) }
{
    // what is refused is left as it is, which is meant here
    let _ = sheet.lay(row, column, 1);
    let _ = sheet.lay(column, row, 1);
}

// A new sheet in lent memory with the two places marked.
pub fn mark_lent<P: Packing>(memory: &mut [u8], width: u16, height: u16, row: usize, column: usize)
    ensures { memory.new ≡ cond (fits width height (P.meaning.stride width * height) (length memory.old))
        (lent_memory P.meaning width height (marked_below P.meaning.limit blank row column) (drop (P.meaning.stride width * height) memory.old))
        memory.old }
{
    let mut sheet = LentSheet::<P>::new(memory, width, height);
    mark(&mut sheet, row, column);
}
