// The bytes of a page before its rows.
ghost use Rattle.std.specs.Prelude.{◌≡◌, ◌+◌, ◌∷◌, ◌≤◌, length, codes};
ghost use Rattle.netpbm.specs.Plain.{framed};

use arrayvec::ArrayString;
use itoa::Buffer;
use std::marker::Model;

// The longest text: LF, five digits, a space, five digits, and LF, 255, LF.
const LONGEST: usize = 17;

// P, the letter of the page's kind, and the text after it.
#[derive(Drop)]
pub(crate) struct Header {
    letter: u8,
    text: ArrayString<LONGEST>,
}

impl Model for Header {
    ghost use Rattle.std.specs.Prelude.{ℕ, List, ◌∷◌};

    ghost Value = { List ℕ };

    ghost view = { λ header. 80 ∷ header.letter ∷ header.text.bytes };
}

impl Header {
    // P, the letter, LF, width, space, height, and `end`.
    pub(crate) fn new(letter: u8, width: u16, height: u16, end: &str) -> Self
        requires { length end.now ≤ 5 }
        ensures { result ≡ framed (80 ∷ letter ∷ codes "\n") width height end.now }
    {
        let mut digits = Buffer::new();
        let mut text = ArrayString::new();
        text.push_str("\n");
        text.push_str(digits.format(width));
        text.push_str(" ");
        text.push_str(digits.format(height));
        text.push_str(end);
        Header { letter, text }
    }

    pub(crate) fn len(&self) -> usize
        ensures value { result ≡ length self.now }
        ensures bound { result ≤ 2 + LONGEST }
    {
        2 + self.text.len()
    }

    // Writes the header over the whole slice.
    pub(crate) fn put(&self, out: &mut [u8])
        requires { length out.old ≡ length self.now }
        ensures { out.new ≡ self.now }
    {
        let text = self.text.as_str().as_bytes();
        out[..2].copy_from_slice(&[b'P', self.letter]);
        out[2..].copy_from_slice(text);
    }
}
