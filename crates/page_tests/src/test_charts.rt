// The chart: 255 × column / (width - 1), rounded down, in every channel.
use crate::seen::ask;
use crate::test_faults::outside;
use source::{Chart, Source};
use tone::{Colour, Grey};

// A width, a column, and the sample there.
const SAMPLES: [(u16, usize, u8); 24] = [
    (1, 0, 0),
    (2, 0, 0),
    (2, 1, 255),
    (3, 0, 0),
    (3, 1, 127),
    (3, 2, 255),
    (4, 1, 85),
    (4, 2, 170),
    (5, 1, 63),
    (5, 2, 127),
    (5, 3, 191),
    (5, 4, 255),
    (256, 0, 0),
    (256, 1, 1),
    (256, 127, 127),
    (256, 128, 128),
    (256, 254, 254),
    (256, 255, 255),
    (257, 1, 0),
    (257, 255, 254),
    (65535, 256, 0),
    (65535, 257, 1),
    (65535, 65533, 254),
    (65535, 65534, 255),
];

// A width and a height, and a place outside the page.
const OUTSIDE: [(u16, u16, usize, usize); 9] = [
    (0, 0, 0, 0),
    (0, 3, 0, 0),
    (3, 0, 0, 0),
    (1, 1, 0, 1),
    (1, 1, 1, 0),
    (3, 2, 1, 3),
    (3, 2, 2, 1),
    (65535, 65535, 65535, 0),
    (65535, 65535, usize::MAX, usize::MAX),
];

#[test]
fn samples_rise_from_left_to_right(rt: HostRuntime) {
    for (i, &(width, column, s)) in SAMPLES.iter().enumerate() {
        let grey: Chart<Grey> = Chart::new(width, 65535);
        assert_eq!(rt;
            ask::<Grey, _>(&grey, 65534, column),
            Ok([s, 0, 0]),
            "case {i}"
        );
        let colour: Chart<Colour> = Chart::new(width, 1);
        assert_eq!(rt;
            ask::<Colour, _>(&colour, 0, column),
            Ok([s, s, s]),
            "case {i}"
        );
    }
}

#[test]
fn a_chart_has_its_own_size(rt: HostRuntime) {
    for (i, &(width, height, row, column)) in OUTSIDE.iter().enumerate() {
        let chart: Chart<Grey> = Chart::new(width, height);
        assert_eq!(rt;
            ask::<Grey, _>(&chart, row, column),
            Err(outside!(0, row, column)),
            "case {i}"
        );
        assert_eq!(rt;
            (chart.width(), chart.height(), chart.layer()),
            (width, height, 0),
            "case {i}"
        );
    }
}
