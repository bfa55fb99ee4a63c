// Crop: the window, cut to the page below in each dimension for itself.
use crate::seen::{Seen, ask};
use crate::test_faults::outside;
use netpbm::{Reader, read};
use source::{Chart, Crop, Source, Window};
use std::test::Fail;
use tone::Grey;

const FAR: usize = usize::MAX;

pub(crate) const fn window(top: usize, left: usize, height: usize, width: usize) -> Window {
    Window {
        top,
        left,
        height,
        width,
    }
}

// Four columns and three rows; a sample's first hexadecimal digit is its row, the second its column.
const PAGE: &[u8] = b"P5 4 3 255\n\x00\x01\x02\x03\x10\x11\x12\x13\x20\x21\x22\x23";

// What the first place of a crop with no place shows.
const NOTHING: Seen = Err(outside!(1, 0, 0));

// Top, left, height and width of a window on that page; height and width that it shows, and its
// first place.
const WINDOWS: [([usize; 4], u16, u16, Seen); 20] = [
    ([0, 0, 3, 4], 3, 4, Ok([0x00, 0, 0])),
    ([1, 2, 1, 1], 1, 1, Ok([0x12, 0, 0])),
    ([1, 2, 2, 2], 2, 2, Ok([0x12, 0, 0])),
    ([2, 1, 1, 3], 1, 3, Ok([0x21, 0, 0])),
    // cut at the right and at the bottom
    ([0, 0, 4, 5], 3, 4, Ok([0x00, 0, 0])),
    ([0, 0, 3, 9], 3, 4, Ok([0x00, 0, 0])),
    ([1, 0, 3, 4], 2, 4, Ok([0x10, 0, 0])),
    ([0, 1, 3, 4], 3, 3, Ok([0x01, 0, 0])),
    ([2, 3, 9, 9], 1, 1, Ok([0x23, 0, 0])),
    ([1, 1, FAR, FAR], 2, 3, Ok([0x11, 0, 0])),
    // wholly beside the page: the other dimension stays
    ([3, 0, 2, 2], 0, 2, NOTHING),
    ([0, 4, 2, 2], 2, 0, NOTHING),
    ([9, 0, 5, 5], 0, 4, NOTHING),
    ([0, 9, 5, 5], 3, 0, NOTHING),
    ([3, 4, 2, 2], 0, 0, NOTHING),
    ([FAR, 0, 2, 2], 0, 2, NOTHING),
    ([FAR, FAR, FAR, FAR], 0, 0, NOTHING),
    // nothing wanted
    ([0, 0, 0, 2], 0, 2, NOTHING),
    ([0, 0, 2, 0], 2, 0, NOTHING),
    ([0, 0, 0, 0], 0, 0, NOTHING),
];

// A page of 65,535 rows or columns: where the window begins, how much it wants, how much it shows.
const LENGTHS: [(usize, usize, u16); 7] = [
    (0, 65535, 65535),
    (0, 65536, 65535),
    (1, 65535, 65534),
    (2, FAR, 65533),
    (65534, 65535, 1),
    (65535, 65535, 0),
    (65536, 65535, 0),
];

// Questions to the window of two rows and two columns at row 1 and column 1.
const WITHIN: [(usize, usize, Seen); 11] = [
    (0, 0, Ok([0x11, 0, 0])),
    (0, 1, Ok([0x12, 0, 0])),
    (1, 0, Ok([0x21, 0, 0])),
    (1, 1, Ok([0x22, 0, 0])),
    // outside the window, though the page below has the place
    (0, 2, Err(outside!(1, 0, 2))),
    // outside, with the place as it was asked
    (2, 0, Err(outside!(1, 2, 0))),
    (70000, 3, Err(outside!(1, 70000, 3))),
    (FAR, 0, Err(outside!(1, FAR, 0))),
    (0, FAR, Err(outside!(1, 0, FAR))),
    (FAR, FAR, Err(outside!(1, FAR, FAR))),
    (FAR - 1, FAR - 1, Err(outside!(1, FAR - 1, FAR - 1))),
];

// Questions to a crop at row 1 and column 0, of five rows and five columns, of that window.
const DEEPER: [(usize, usize, Seen); 5] = [
    (0, 0, Ok([0x21, 0, 0])),
    (0, 1, Ok([0x22, 0, 0])),
    (0, 2, Err(outside!(2, 0, 2))),
    (1, 0, Err(outside!(2, 1, 0))),
    (4, 4, Err(outside!(2, 4, 4))),
];

#[test]
fn a_window_is_cut_to_the_page(rt: HostRuntime) -> Result<(), Fail> {
    for (i, &([top, left, height, width], high, wide, seen)) in WINDOWS.iter().enumerate() {
        let page = read::<Grey>(PAGE)?;
        let crop = Crop::new(page, window(top, left, height, width));
        assert_eq!(rt; ask::<Grey, _>(&crop, 0, 0), seen, "case {i}");
        assert_eq!(rt; crop.height(), high, "case {i}");
        assert_eq!(rt; crop.width(), wide, "case {i}");
    }
    Ok(())
}

#[test]
fn lengths_are_cut_exactly(rt: HostRuntime) {
    for (i, &(from, wanted, shown)) in LENGTHS.iter().enumerate() {
        let tall: Chart<Grey> = Chart::new(1, 65535);
        assert_eq!(rt;
            Crop::new(tall, window(from, 0, wanted, 1)).height(),
            shown,
            "case {i}"
        );
        let wide: Chart<Grey> = Chart::new(65535, 1);
        assert_eq!(rt;
            Crop::new(wide, window(0, from, 1, wanted)).width(),
            shown,
            "case {i}"
        );
    }
}

#[test]
fn a_window_shows_its_places(rt: HostRuntime) -> Result<(), Fail> {
    let page = read::<Grey>(PAGE)?;
    let crop = Crop::new(page, window(1, 1, 2, 2));
    for (i, &(row, column, seen)) in WITHIN.iter().enumerate() {
        assert_eq!(rt; ask::<Grey, _>(&crop, row, column), seen, "case {i}");
    }
    Ok(())
}

#[test]
fn a_crop_of_a_crop(rt: HostRuntime) -> Result<(), Fail> {
    let page = read::<Grey>(PAGE)?;
    let deeper = Crop::new(Crop::new(page, window(1, 1, 2, 2)), window(1, 0, 5, 5));
    assert_eq!(rt;
        (deeper.height(), deeper.width(), deeper.layer()),
        (1, 2, 2)
    );
    for (i, &(row, column, seen)) in DEEPER.iter().enumerate() {
        assert_eq!(rt; ask::<Grey, _>(&deeper, row, column), seen, "case {i}");
    }
    Ok(())
}
