// How the inks of a row are packed in bytes.
ghost use Rattle.std.specs.Prelude.{◌≡◌, ℕ, ◌<◌};
ghost use Rattle.sheet.specs.Laying.{put};
ghost use Rattle.sheet.specs.Memory.{blank};
ghost use Rattle.sheet.specs.Packing.{PackingLaws, PackingMeaning};

pub trait Packing {
    // limit, bytes of a row, and what each of these bytes holds
    ghost meaning: { PackingMeaning };

    // Ink numbers are below the limit.
    fn limit() -> u16
        ensures { result ≡ meaning.limit };

    // The bytes of a row.
    fn stride(width: u16) -> usize
        ensures { result ≡ meaning.stride width };

    // The byte of its row that a column stands in.
    fn byte_of(column: usize) -> usize
        ensures { result ≡ meaning.byte_of column };

    // The ink that a byte holds for a column.
    fn ink_in(byte: u8, column: usize) -> u8
        ensures { result ≡ meaning.ink_in byte column };

    // A byte of a row with another ink for one of its columns.
    fn with_ink(byte: u8, column: usize, number: u8) -> u8
        ensures { (width : ℕ) (ink : ℕ → ℕ → ℕ) (row : ℕ) → column < width
            → byte ≡ meaning.row_byte width ink row (meaning.byte_of column)
            → result ≡ meaning.row_byte width (put ink row column number) row (meaning.byte_of column) };

    // Byte j of a row of ink 0.
    fn blank_byte(width: u16, j: usize) -> u8
        ensures { (row : ℕ) → result ≡ meaning.row_byte width blank row j };

    ghost laws: { PackingLaws meaning };
}
