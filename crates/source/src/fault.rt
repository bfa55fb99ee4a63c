// Why a source has no tone at a place.
ghost use Rattle.std.specs.Prelude.{◌≡◌, ◌++◌, ◌&&◌, codes, cond, decimal, nat_lt, Some, Ok, Err};
ghost use Rattle.source.specs.declared.fault.Fault.TheVariants.{Outside};
ghost use Rattle.source.specs.Faults.{told};

use std::error::Error;
use std::fmt;

// The layer that refused, and the row and column in that layer's own page. The bottom is layer 0,
// and each layer is one more than the one below, up to 65,535.
#[derive(Clone, Copy, PartialEq, Eq, Debug)]
pub struct Spot {
    pub layer: u16,
    pub row: usize,
    pub column: usize,
}

impl Spot {
    // Ok where the spot lies on a page of this size, and else the fault that it lies outside.
    pub fn on_page(self, width: u16, height: u16) -> Result<(), Fault>
        ensures { result ≡ cond (nat_lt self.row height && nat_lt self.column width) (Ok tt) (Err (Outside self)) }
    {
        if self.row < usize::from(height) && self.column < usize::from(width) {
            Ok(())
        } else {
            Err(Fault::Outside(self))
        }
    }
}

// 7: the place lies outside the page; 8: it is missing from the page.
#[derive(Clone, Copy, PartialEq, Eq, Debug)]
pub enum Fault {
    Outside(Spot),
    Missing(Spot),
}

impl Fault {
    // The fault's number: users know refusals by their listed numbers.
    pub fn number(&self) -> u8
        ensures { result ≡ (told self.now).number }
    {
        match self {
            Fault::Outside(_) => 7,
            Fault::Missing(_) => 8,
        }
    }

    // Where it was raised.
    pub fn spot(&self) -> Spot
        ensures { result ≡ (told self.now).spot }
    {
        match self {
            Fault::Outside(spot) | Fault::Missing(spot) => *spot,
        }
    }
}

// The fault's number and spot.
impl fmt::Display for Fault {
    ghost output = { λ e. Some (decimal (told e).number ++ codes ", layer " ++ decimal (told e).spot.layer ++ codes ", row "
        ++ decimal (told e).spot.row ++ codes ", column " ++ decimal (told e).spot.column) };

    fn fmt<W: fmt::Write>(&self, f: &mut fmt::Formatter<W>) -> fmt::Result {
        let number = self.number();
        let Spot { layer, row, column } = self.spot();
        write!(f, "{number}, layer {layer}, row {row}, column {column}")
    }
}

impl Error for Fault {}
