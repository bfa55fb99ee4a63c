// The calls of a sheet in lent memory.
ghost use Rattle.std.proofs.Common.{rules};
ghost use Rattle.std.specs.Prelude.{◌≡◌, ◌+◌, ◌*◌, ◌/◌, ◌%◌, ◌<◌, ◌≤◌, [], ◌∷◌, map, length, drop, if◌then◌else◌, IfOk, MatchResult};
ghost use Rattle.std.specs.List.{range_with_len};
ghost use Rattle.sheet.specs.Laying.{Blank};
ghost use Rattle.sheet.specs.Limits.{fits};
ghost use Rattle.sheet.specs.Memory.{blank, lent_ink, lent_meaning, lent_memory};

use crate::fault::SheetFault;
use crate::lent::LentSheet;
use crate::packings::Packing;
use crate::sheets::Sheet;
use crate::{MAX_HEIGHT, MAX_WIDTH};
use std::marker::PhantomData;

// Whether a sheet of this size, in need of so many bytes, can be made in so much memory.
fn can_be_made(width: u16, height: u16, bytes: usize, memory: usize) -> bool
    ensures { result ≡ fits width height bytes memory }
{
    (1..=MAX_WIDTH).contains(&width) && (1..=MAX_HEIGHT).contains(&height) && bytes <= memory
}

// Writes rows of ink 0.
fn blank_rows<P: Packing>(rows: &mut [u8], width: u16)
    requires { 1 ≤ width }
    ensures { rows.new ≡ map (λ k. P.meaning.row_byte width blank (k / P.meaning.stride width) (k % P.meaning.stride width))
        (range_with_len 0 (length rows.old)) }
{
    let stride = P::stride(width);
    for (k, byte) in rows.iter_mut().enumerate() {
        *byte = P::blank_byte(width, k % stride);
    }
}

impl<'a, P: Packing> LentSheet<'a, P> {
    // A sheet of ink 0. Where the size is outside the limits or the memory too short, the sheet is 0 by 0.
    // Bytes past the sheet keep what they hold.
    pub fn new(memory: &'a mut [u8], width: u16, height: u16) -> LentSheet<'a, P>
        ensures means { Blank (lent_meaning P.meaning result.memory.now result.width result.height)
            (if fits width height (P.meaning.stride width * height) (length memory.old) then width else 0)
            (if fits width height (P.meaning.stride width * height) (length memory.old) then height else 0) P.meaning.limit }
        ensures memory { result.memory.now ≡ lent_memory P.meaning result.width result.height blank
            (drop (P.meaning.stride result.width * result.height) memory.old) }
        ensures lent { result.memory.ghost_name ≡ memory.entry.ghost_name }
    {
        let bytes = P::stride(width) * usize::from(height);
        if !can_be_made(width, height, bytes, memory.len()) {
            return LentSheet {
                memory,
                width: 0,
                height: 0,
                packing: PhantomData,
            };
        }
        blank_rows::<P>(&mut memory[..bytes], width);
        LentSheet {
            memory,
            width,
            height,
            packing: PhantomData,
        }
    }

    // The whole memory that was lent: the packed rows, and the bytes past them.
    pub fn memory(&self) -> &[u8]
        ensures { result.now ≡ lent_memory P.meaning self.now.width self.now.height
            (lent_ink P.meaning self.now.memory.now self.now.width)
            (drop (P.meaning.stride self.now.width * self.now.height) self.now.memory.now) }
    {
        &*self.memory
    }

    // Where in the memory the byte of a place is.
    fn byte_at(&self, row: usize, column: usize) -> Result<usize, SheetFault>
        ensures place { MatchResult result
            (λ at. (row < self.now.height) × (column < self.now.width) × (at ≡ row * P.meaning.stride self.now.width + P.meaning.byte_of column))
            (λ e. (e ≡ SheetFault.OffSheet) × ((row < self.now.height) → (column < self.now.width) → ⊥)) }
        ensures inside { IfOk result (λ at. at < length self.now.memory.now) }
    {
        if row >= usize::from(self.height) || column >= usize::from(self.width) {
            return Err(SheetFault::OffSheet);
        }
        Ok(row * P::stride(self.width) + P::byte_of(column))
    }
}

impl<P: Packing> Sheet for LentSheet<'_, P> {
    ghost meaning = { λ s. lent_meaning P.meaning s.memory.now s.width s.height };

    ghost lent = { λ s. s.memory.ghost_name ∷ [] };

    ghost besides = { λ s. drop (P.meaning.stride s.width * s.height) s.memory.now };

    ghost bounds = { Prim.search rules };

    fn width(&self) -> u16 {
        self.width
    }

    fn height(&self) -> u16 {
        self.height
    }

    fn limit(&self) -> u16 {
        P::limit()
    }

    fn ink_at(&self, row: usize, column: usize) -> Result<u16, SheetFault> {
        let at = self.byte_at(row, column)?;
        Ok(u16::from(P::ink_in(self.memory[at], column)))
    }

    fn lay(&mut self, row: usize, column: usize, number: u16) -> Result<(), SheetFault> {
        let at = self.byte_at(row, column)?;
        if number >= P::limit() {
            return Err(SheetFault::OverLimit);
        }
        // below the limit, so a byte
        self.memory[at] = P::with_ink(self.memory[at], column, number as u8);
        Ok(())
    }
}
