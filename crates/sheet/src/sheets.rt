// The interface of a sheet.
ghost use Rattle.std.specs.Borrow.{GName};
ghost use Rattle.std.specs.Prelude.{◌≡◌, ℕ, List};
ghost use Rattle.sheet.specs.Laying.{After, asking, laying, numbered};
ghost use Rattle.sheet.specs.Meaning.{SheetBounds, SheetMeaning};

use crate::fault::SheetFault;

pub trait Sheet {
    // size, limit and the ink number at each place
    ghost meaning: { Self → SheetMeaning };
    // the ghost names of the references to memory that was lent to the sheet; none for a sheet that owns its memory
    ghost lent: { Self → List GName };
    // what the sheet holds besides its inks, as the bytes past them
    ghost besides: { Self → List ℕ };

    fn width(&self) -> u16
        ensures { result ≡ (meaning self.now).width };

    fn height(&self) -> u16
        ensures { result ≡ (meaning self.now).height };

    // Ink numbers on this sheet are below the limit.
    fn limit(&self) -> u16
        ensures { result ≡ (meaning self.now).limit };

    // The ink number at a place. Row and column stay two numbers, as in a source: they come from loops of their own.
    fn ink_at(&self, row: usize, column: usize) -> Result<u16, SheetFault>
        ensures { numbered result ≡ asking (meaning self.now) row column };

    // Gives one place the number; a refusal leaves the whole sheet as it was.
    fn lay(&mut self, row: usize, column: usize, number: u16) -> Result<(), SheetFault>
        ensures answer { numbered result ≡ laying (meaning self.old) row column number }
        ensures after { After meaning self.old self.new row column number result }
        ensures keeps { (lent self.new ≡ lent self.old)
            × (besides self.new ≡ besides self.old) };

    ghost bounds: { (sheet : Self) → SheetBounds (meaning sheet) };
}
