// Faults: what each tells, and how the tables write them.
use netpbm::PageFault;
use source::{Fault, Spot};
use std::test::Fail;

// A fault of a place outside the page, with the layer, the row and the column that it tells. It is a macro
// since the tables are constants, whose values cannot call a `const fn`.
macro_rules! outside {
    ($layer:expr, $row:expr, $column:expr) => {
        source::Fault::Outside(source::Spot {
            layer: $layer,
            row: $row,
            column: $column,
        })
    };
}

pub(crate) use outside;

// The same of a missing place.
macro_rules! missing {
    ($layer:expr, $row:expr, $column:expr) => {
        source::Fault::Missing(source::Spot {
            layer: $layer,
            row: $row,
            column: $column,
        })
    };
}

pub(crate) use missing;

// A fault of a place, its number, and the spot that it tells.
#[test]
fn faults_of_places_tell_number_and_spot(rt: HostRuntime) {
    let spot = Spot {
        layer: 3,
        row: 1,
        column: 2,
    };
    assert_eq!(rt; Fault::Outside(spot).number(), 7);
    assert_eq!(rt; Fault::Outside(spot).spot(), spot);
    assert_eq!(rt; Fault::Missing(spot).number(), 8);
    assert_eq!(rt; Fault::Missing(spot).spot(), spot);
}

// A refusal of a page file, its number, its byte, and both as text.
const REFUSALS: [(PageFault, u8, usize, &str); 4] = [
    (PageFault::Letters, 15, 0, "15 at byte 0"),
    (PageFault::Field(2), 16, 2, "16 at byte 2"),
    (PageFault::Size(4), 17, 4, "17 at byte 4"),
    (PageFault::Maximum(14), 18, 14, "18 at byte 14"),
];

#[test]
fn refusals_tell_number_and_byte(rt: HostRuntime) -> Result<(), Fail> {
    for (i, &(fault, number, byte, text)) in REFUSALS.iter().enumerate() {
        assert_eq!(rt; (fault.number(), fault.byte()), (number, byte), "case {i}");
        assert_eq!(rt; fault.to_string(rt.alloc())?.as_str(), text, "case {i}");
    }
    Ok(())
}
