// Negative, and stacks of layers: what is shown, and who tells a fault.
use crate::flat::Flat;
use crate::seen::{Seen, ask};
use crate::test_crops::window;
use crate::test_faults::{missing, outside};
use netpbm::read;
use source::{Crop, Negative, Source};
use std::test::Fail;
use tone::{Colour, Grey};

const FAR: usize = usize::MAX;

// Four columns and three rows with seven samples, so that (1, 3) and the last row are missing:
// 0 1 127 128 / 254 255 100.
const PAGE: &[u8] = b"P5 4 3 255\n\x00\x01\x7f\x80\xfe\xff\x64";

// A negative that is on, over that page.
const ON: [(usize, usize, Seen); 11] = [
    (0, 0, Ok([255, 0, 0])),
    (0, 1, Ok([254, 0, 0])),
    (0, 2, Ok([128, 0, 0])),
    (0, 3, Ok([127, 0, 0])),
    (1, 0, Ok([1, 0, 0])),
    (1, 1, Ok([0, 0, 0])),
    (1, 2, Ok([155, 0, 0])),
    (1, 3, Err(missing!(0, 1, 3))),
    (2, 0, Err(missing!(0, 2, 0))),
    (0, 4, Err(outside!(1, 0, 4))),
    (3, FAR, Err(outside!(1, 3, FAR))),
];

// A negative that is off: the page as it is, and a layer all the same.
const OFF: [(usize, usize, Seen); 6] = [
    (0, 0, Ok([0, 0, 0])),
    (0, 3, Ok([128, 0, 0])),
    (1, 2, Ok([100, 0, 0])),
    (1, 3, Err(missing!(0, 1, 3))),
    (0, 4, Err(outside!(1, 0, 4))),
    (3, 0, Err(outside!(1, 3, 0))),
];

// Layer 3, a negative that is on, over layer 2, a crop of nine rows and two columns at row 0 and
// column 2, over layer 1, a negative that is off, over the page. Missing places are the reader's
// own, with its row and column; only the top layer says that a place is outside.
const STACK: [(usize, usize, Seen); 10] = [
    (0, 0, Ok([128, 0, 0])),
    (0, 1, Ok([127, 0, 0])),
    (1, 0, Ok([155, 0, 0])),
    (1, 1, Err(missing!(0, 1, 3))),
    (2, 0, Err(missing!(0, 2, 2))),
    (2, 1, Err(missing!(0, 2, 3))),
    (0, 2, Err(outside!(3, 0, 2))),
    (3, 0, Err(outside!(3, 3, 0))),
    (3, 2, Err(outside!(3, 3, 2))),
    (FAR, FAR, Err(outside!(3, FAR, FAR))),
];

// A crop over a crop, both at row 1 and column 1, over the page: its first place is (2, 2) below.
const TWO_CROPS: [(usize, usize, Seen); 4] = [
    (0, 0, Err(missing!(0, 2, 2))),
    (0, 1, Err(missing!(0, 2, 3))),
    (0, 2, Err(outside!(2, 0, 2))),
    (1, 0, Err(outside!(2, 1, 0))),
];

// Two columns, the second without its blue.
const COLOURS: &[u8] = b"P6 2 1 255\n\x00\x64\xff\x01\x02";

#[test]
fn a_negative_shows_what_is_left_to_255(rt: HostRuntime) -> Result<(), Fail> {
    let page = read::<Grey>(PAGE)?;
    let negative = Negative::new(page, true);
    assert_eq!(rt;
        (negative.width(), negative.height(), negative.layer()),
        (4, 3, 1)
    );
    for (i, &(row, column, seen)) in ON.iter().enumerate() {
        assert_eq!(rt; ask::<Grey, _>(&negative, row, column), seen, "case {i}");
    }
    Ok(())
}

#[test]
fn a_negative_that_is_off_is_a_layer(rt: HostRuntime) -> Result<(), Fail> {
    let page = read::<Grey>(PAGE)?;
    let negative = Negative::new(page, false);
    assert_eq!(rt;
        (negative.width(), negative.height(), negative.layer()),
        (4, 3, 1)
    );
    for (i, &(row, column, seen)) in OFF.iter().enumerate() {
        assert_eq!(rt; ask::<Grey, _>(&negative, row, column), seen, "case {i}");
    }
    Ok(())
}

#[test]
fn a_stack_passes_a_missing_place_up(rt: HostRuntime) -> Result<(), Fail> {
    let page = read::<Grey>(PAGE)?;
    let stack = Negative::new(
        Crop::new(Negative::new(page, false), window(0, 2, 9, 2)),
        true,
    );
    assert_eq!(rt; (stack.width(), stack.height(), stack.layer()), (2, 3, 3));
    for (i, &(row, column, seen)) in STACK.iter().enumerate() {
        assert_eq!(rt; ask::<Grey, _>(&stack, row, column), seen, "case {i}");
    }
    Ok(())
}

#[test]
fn a_missing_place_below_two_crops(rt: HostRuntime) -> Result<(), Fail> {
    let page = read::<Grey>(PAGE)?;
    let crops = Crop::new(Crop::new(page, window(1, 1, 9, 9)), window(1, 1, 9, 9));
    assert_eq!(rt; (crops.width(), crops.height(), crops.layer()), (2, 1, 2));
    for (i, &(row, column, seen)) in TWO_CROPS.iter().enumerate() {
        assert_eq!(rt; ask::<Grey, _>(&crops, row, column), seen, "case {i}");
    }
    Ok(())
}

#[test]
fn a_negative_acts_on_each_channel(rt: HostRuntime) -> Result<(), Fail> {
    let page = read::<Colour>(COLOURS)?;
    let once = Negative::new(page, true);
    assert_eq!(rt; ask::<Colour, _>(&once, 0, 0), Ok([255, 155, 0]));
    assert_eq!(rt; ask::<Colour, _>(&once, 0, 1), Err(missing!(0, 0, 1)));
    let twice = Negative::new(once, true);
    assert_eq!(rt; ask::<Colour, _>(&twice, 0, 0), Ok([0, 100, 255]));
    assert_eq!(rt; ask::<Colour, _>(&twice, 1, 0), Err(outside!(2, 1, 0)));
    Ok(())
}

#[test]
fn the_number_of_a_layer_stops(rt: HostRuntime) {
    let deep = Flat::new(Grey { light: 9 }, 2, 2, 65534);
    assert_eq!(rt; ask::<Grey, _>(&deep, 2, 2), Err(outside!(65534, 2, 2)));
    let last = Crop::new(deep, window(0, 0, 2, 2));
    assert_eq!(rt; ask::<Grey, _>(&last, 2, 0), Err(outside!(65535, 2, 0)));
    let more = Negative::new(last, true);
    assert_eq!(rt; ask::<Grey, _>(&more, 0, 2), Err(outside!(65535, 0, 2)));
    assert_eq!(rt; ask::<Grey, _>(&more, 1, 1), Ok([246, 0, 0]));
    assert_eq!(rt; Crop::new(more, window(0, 0, 1, 1)).layer(), 65535);
}
