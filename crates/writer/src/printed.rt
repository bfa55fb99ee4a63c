// A sheet of ink numbers, and the inks that they stand for.
ghost use Rattle.std.specs.Prelude.{◌≡◌, ◌<◌, if◌then◌else◌};
ghost use Rattle.ink.specs.Inks.{ink_tone};
ghost use Rattle.sheet.specs.Memory.{bit_of_place};
ghost use Rattle.writer.specs.Pages.{black_white, counted};

use ink::InkSet;
use sheet::Sheet;
use std::marker::PhantomData;
use tone::Tone;

// The tone of white, full light.
const WHITE: u8 = 255;

#[derive_where(Clone, Copy)]
pub(crate) struct Printed<'a, T, I, S> {
    pub(crate) inks: &'a I,
    pub(crate) sheet: &'a S,
    pub(crate) kind: PhantomData<T>,
}

impl<T: Tone, I: InkSet<T>, S: Sheet> Printed<'_, T, I, S> {
    // Whether the set has just two grey inks, black and then white.
    pub(crate) fn is_black_and_white(&self) -> bool
        ensures { result ≡ black_white T.count T.value (I.meaning self.now.inks.now) (S.meaning self.now.sheet.now) }
    {
        T::channels() == 1
            && self.inks.count() == 2
            && self.inks.tone(0).channel(0) == 0
            && self.inks.tone(1).channel(0) == WHITE
    }

    // The ink number at a place.
    fn number_at(&self, row: usize, column: usize) -> u16
        requires { (row < (S.meaning self.now.sheet.now).height) × (column < (S.meaning self.now.sheet.now).width) }
        ensures { result ≡ (S.meaning self.now.sheet.now).ink row column }
    {
        self.sheet.ink_at(row, column).unwrap()
    }

    // The tone at a place.
    pub(crate) fn tone_at(&self, row: usize, column: usize) -> T
        requires { (row < (S.meaning self.now.sheet.now).height) × (column < (S.meaning self.now.sheet.now).width) }
        ensures { result ≡ ink_tone (I.meaning self.now.inks.now) ((S.meaning self.now.sheet.now).ink row column) }
    {
        self.inks.tone(self.number_at(row, column))
    }

    // Whether a place of a row has ink 0, which is black. A number from the number of inks up counts as ink 0, and past
    // the row's end nothing is black.
    pub(crate) fn is_black(&self, row: usize, column: usize) -> bool
        requires { row < (S.meaning self.now.sheet.now).height }
        ensures { bit_of_place (S.meaning self.now.sheet.now).width (counted T.count T.value (I.meaning self.now.inks.now) (S.meaning self.now.sheet.now)) row column
            ≡ (if result then 1 else 0) }
    {
        if column >= usize::from(self.sheet.width()) {
            return false;
        }
        let number = self.number_at(row, column);
        number == 0 || number >= self.inks.count()
    }
}
