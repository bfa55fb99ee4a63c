// Why a sheet refuses a call.
ghost use Rattle.std.specs.Prelude.{Some};
ghost use Rattle.sheet.specs.Laying.{fault_text};

use std::error::Error;
use std::fmt;

#[derive(Clone, Copy, PartialEq, Eq, Hash, Debug)]
pub enum SheetFault {
    // refusal 9: the place is not on the sheet
    OffSheet,
    // refusal 10: the ink number is the sheet's limit or more
    OverLimit,
}

impl fmt::Display for SheetFault {
    ghost output = { λ fault. Some (fault_text fault) };

    fn fmt<W: fmt::Write>(&self, f: &mut fmt::Formatter<W>) -> fmt::Result {
        match self {
            SheetFault::OffSheet => write!(f, "refusal 9: the place is not on the sheet"),
            SheetFault::OverLimit => write!(
                f,
                "refusal 10: the ink number is the sheet's limit or more"
            ),
        }
    }
}

impl Error for SheetFault {}
