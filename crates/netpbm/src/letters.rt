// The kinds of tone that Netpbm has pages for.
ghost use Rattle.std.specs.Prelude.{◌≡◌, ℕ};

use tone::{Colour, Grey, Tone};

pub trait PageTone: Tone {
    // the byte after the P at the start of a page of this kind
    ghost letter: { ℕ };

    fn page_letter() -> u8
        ensures { result ≡ letter };
}

// P5, a portable graymap
impl PageTone for Grey {
    ghost letter = { 53 };

    fn page_letter() -> u8 {
        b'5'
    }
}

// P6, a portable pixmap
impl PageTone for Colour {
    ghost letter = { 54 };

    fn page_letter() -> u8 {
        b'6'
    }
}
