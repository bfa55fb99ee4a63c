// Layers over kinds of tone that no crate below knows: one with two channels, and one that holds
// more than its channel.
use crate::flat::Flat;
use crate::kinds::{Marked, Pair};
use crate::seen::ask;
use crate::test_crops::window;
use crate::test_faults::outside;
use source::{Chart, Crop, Negative, Source};
use std::test::Fail;
use tone::Tone;

#[test]
fn two_channels_through_the_layers(rt: HostRuntime) {
    let chart: Chart<Pair> = Chart::new(5, 1);
    assert_eq!(rt; ask::<Pair, _>(&chart, 0, 1), Ok([63, 63, 0]));
    let negative = Negative::new(Crop::new(chart, window(0, 1, 1, 2)), true);
    assert_eq!(rt; ask::<Pair, _>(&negative, 0, 0), Ok([192, 192, 0]));
    assert_eq!(rt; ask::<Pair, _>(&negative, 0, 1), Ok([128, 128, 0]));
    assert_eq!(rt; ask::<Pair, _>(&negative, 0, 2), Err(outside!(2, 0, 2)));
}

#[test]
fn each_of_two_channels_has_its_negative(rt: HostRuntime) {
    let tone: Pair = Tone::build([10, 200, 77]);
    let flat = Flat::new(tone, 1, 1, 0);
    assert_eq!(rt; ask::<Pair, _>(&flat, 0, 0), Ok([10, 200, 0]));
    let negative = Negative::new(flat, true);
    assert_eq!(rt; ask::<Pair, _>(&negative, 0, 0), Ok([245, 55, 0]));
}

#[test]
fn a_mark_is_passed_up_and_not_built(rt: HostRuntime) -> Result<(), Fail> {
    let flat = Flat::new(Marked { light: 10, mark: 7 }, 2, 2, 0);
    let crop = Crop::new(Negative::new(flat, false), window(1, 1, 1, 1));
    let same = crop.at(0, 0)?;
    assert_eq!(rt; same, Marked { light: 10, mark: 7 });
    let negative = Negative::new(crop, true);
    let built = negative.at(0, 0)?;
    assert_eq!(rt;
        built,
        Marked {
            light: 245,
            mark: 0,
        }
    );
    Ok(())
}
