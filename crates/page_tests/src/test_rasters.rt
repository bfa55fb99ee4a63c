// The samples of a page: which places are there, which are missing, and what is told of both.
use crate::seen::{Seen, ask};
use crate::test_faults::{missing, outside};
use netpbm::read;
use std::test::Fail;
use tone::{Colour, Grey};

const FAR: usize = usize::MAX;

// Three columns and two rows: 10 20 30 / 40 50, and no sample for the last place.
const SHORT: &[u8] = b"P5 3 2 255\n\x0a\x14\x1e\x28\x32";
// Two samples, and bytes after them.
const LONG: &[u8] = b"P5 2 1 255\n\x00\xff\x03P5";
// No sample at all.
const EMPTY: &[u8] = b"P5 2 2 255 ";
// Of the CR and LF after the maximum, the LF is the first sample.
const TWO_ENDS: &[u8] = b"P5 2 1 255\r\n7";
// The largest page, with one sample.
const LARGE: &[u8] = b"P5 65535 65535 255\n\x2a";

// A grey page, a row and a column, and what is seen there.
const GREY: [(&[u8], usize, usize, Seen); 30] = [
    (SHORT, 0, 0, Ok([10, 0, 0])),
    (SHORT, 0, 1, Ok([20, 0, 0])),
    (SHORT, 0, 2, Ok([30, 0, 0])),
    (SHORT, 1, 0, Ok([40, 0, 0])),
    (SHORT, 1, 1, Ok([50, 0, 0])),
    (SHORT, 1, 2, Err(missing!(0, 1, 2))),
    // outside, with the place as it was asked
    (SHORT, 0, 3, Err(outside!(0, 0, 3))),
    (SHORT, 1, 3, Err(outside!(0, 1, 3))),
    (SHORT, 2, 0, Err(outside!(0, 2, 0))),
    (SHORT, 2, 3, Err(outside!(0, 2, 3))),
    (SHORT, 70000, 3, Err(outside!(0, 70000, 3))),
    (SHORT, 65536, 0, Err(outside!(0, 65536, 0))),
    (SHORT, 0, 65536, Err(outside!(0, 0, 65536))),
    (SHORT, FAR, 0, Err(outside!(0, FAR, 0))),
    (SHORT, 0, FAR, Err(outside!(0, 0, FAR))),
    (SHORT, FAR, FAR, Err(outside!(0, FAR, FAR))),
    // bytes after the raster belong to no place
    (LONG, 0, 0, Ok([0, 0, 0])),
    (LONG, 0, 1, Ok([255, 0, 0])),
    (LONG, 0, 2, Err(outside!(0, 0, 2))),
    (LONG, 1, 0, Err(outside!(0, 1, 0))),
    (EMPTY, 0, 0, Err(missing!(0, 0, 0))),
    (EMPTY, 1, 1, Err(missing!(0, 1, 1))),
    (EMPTY, 0, 2, Err(outside!(0, 0, 2))),
    (TWO_ENDS, 0, 0, Ok([10, 0, 0])),
    (TWO_ENDS, 0, 1, Ok([55, 0, 0])),
    (LARGE, 0, 0, Ok([42, 0, 0])),
    (LARGE, 0, 1, Err(missing!(0, 0, 1))),
    (LARGE, 65534, 65534, Err(missing!(0, 65534, 65534))),
    (LARGE, 65535, 0, Err(outside!(0, 65535, 0))),
    (LARGE, 0, 65535, Err(outside!(0, 0, 65535))),
];

// Two columns and two rows; the last place lacks one of its three samples.
const ONE_LACKS: &[u8] = b"P6 2 2 255\n\x01\x02\x03\x04\x05\x06\x07\x08\x09\x0a\x0b";
// The same page where the last place lacks two.
const TWO_LACK: &[u8] = b"P6 2 2 255\n\x01\x02\x03\x04\x05\x06\x07\x08\x09\x0a";
// The same page with all its samples.
const WHOLE: &[u8] = b"P6 2 2 255\n\x01\x02\x03\x04\x05\x06\x07\x08\x09\x0a\x0b\x0c";

// A colour page, a row and a column, and what is seen there.
const COLOUR: [(&[u8], usize, usize, Seen); 13] = [
    (WHOLE, 0, 0, Ok([1, 2, 3])),
    (WHOLE, 0, 1, Ok([4, 5, 6])),
    (WHOLE, 1, 0, Ok([7, 8, 9])),
    (WHOLE, 1, 1, Ok([10, 11, 12])),
    (WHOLE, 0, 2, Err(outside!(0, 0, 2))),
    (WHOLE, 2, 0, Err(outside!(0, 2, 0))),
    (WHOLE, FAR, FAR, Err(outside!(0, FAR, FAR))),
    // a place that has a part of its samples is missing
    (ONE_LACKS, 1, 0, Ok([7, 8, 9])),
    (ONE_LACKS, 1, 1, Err(missing!(0, 1, 1))),
    (TWO_LACK, 1, 0, Ok([7, 8, 9])),
    (TWO_LACK, 1, 1, Err(missing!(0, 1, 1))),
    (b"P6 1 1 255\n\x01\x02", 0, 0, Err(missing!(0, 0, 0))),
    (
        b"P6 65535 65535 255\n",
        65534,
        65534,
        Err(missing!(0, 65534, 65534)),
    ),
];

#[test]
fn places_of_grey_pages(rt: HostRuntime) -> Result<(), Fail> {
    for (i, &(bytes, row, column, seen)) in GREY.iter().enumerate() {
        let Ok(page) = read::<Grey>(bytes) else {
            return Err(Fail::new(format_args!("case {i} is no page")));
        };
        assert_eq!(rt; ask::<Grey, _>(&page, row, column), seen, "case {i}");
    }
    Ok(())
}

#[test]
fn places_of_colour_pages(rt: HostRuntime) -> Result<(), Fail> {
    for (i, &(bytes, row, column, seen)) in COLOUR.iter().enumerate() {
        let Ok(page) = read::<Colour>(bytes) else {
            return Err(Fail::new(format_args!("case {i} is no page")));
        };
        assert_eq!(rt; ask::<Colour, _>(&page, row, column), seen, "case {i}");
    }
    Ok(())
}
