// Choices, tones and spreads of small sets.
ghost use Rattle.std.specs.Prelude.{◌≡◌, ◌*◌, if◌then◌else◌};
ghost use Rattle.ink.specs.Inks.{ink_tone};
ghost use Rattle.ink.specs.LevelRules.{colour_steps, grey_steps};
ghost use Rattle.ink.specs.Levels.{colour_levels, grey_levels};
ghost use Rattle.ink.specs.Nearness.{Nearest};
ghost use Rattle.ink.specs.Values.{values};

use crate::{ColourLevels, GreyLevels, InkList, InkSet};
use tone::{Colour, Grey, Tone};

// The calls at the two kinds of tone, in the words for each kind.
fn new_grey(n: u16) -> GreyLevels
    ensures { result.steps ≡ (if grey_steps n then n else 2) }
{
    GreyLevels::new(n)
}

fn new_colour(n: u16) -> ColourLevels
    ensures { result.steps ≡ (if colour_steps n then n else 2) }
{
    ColourLevels::new(n)
}

#[tactic(auto, using(crate::proofs::LevelKinds::grey_number))]
fn count_grey(inks: &GreyLevels) -> u16
    ensures { result ≡ inks.now.steps }
{
    inks.count()
}

#[tactic(auto, using(crate::proofs::LevelKinds::colour_number))]
fn count_colour(inks: &ColourLevels) -> u16
    ensures { result ≡ inks.now.steps * (inks.now.steps * inks.now.steps) }
{
    inks.count()
}

fn choose_grey(inks: &GreyLevels, wanted: [i32; 3]) -> u16
    ensures answer { result ≡ (grey_levels inks.now.steps inks.now.listed).choice (values 1 wanted) }
    ensures nearest { Nearest (grey_levels inks.now.steps inks.now.listed) (values 1 wanted) result }
{
    inks.choose(wanted)
}

fn choose_colour(inks: &ColourLevels, wanted: [i32; 3]) -> u16
    ensures answer { result ≡ (colour_levels inks.now.steps inks.now.listed).choice (values 3 wanted) }
    ensures nearest { Nearest (colour_levels inks.now.steps inks.now.listed) (values 3 wanted) result }
{
    inks.choose(wanted)
}

fn grey_tone(inks: &GreyLevels, number: u16) -> Grey
    ensures { result ≡ ink_tone (grey_levels inks.now.steps inks.now.listed) number }
{
    inks.tone(number)
}

fn colour_tone(inks: &ColourLevels, number: u16) -> Colour
    ensures { result ≡ ink_tone (colour_levels inks.now.steps inks.now.listed) number }
{
    inks.tone(number)
}

#[test]
fn grey_levels_take_the_nearest(rt: HostRuntime) {
    let two = GreyLevels::new(2);
    assert_eq!(rt; choose_grey(&two, [127, 0, 0]), 0);
    assert_eq!(rt; two.choose([128, 0, 0]), 1);
    let four = GreyLevels::new(4);
    assert_eq!(rt; four.choose([42, 0, 0]), 0);
    assert_eq!(rt; four.choose([43, 0, 0]), 1);
    assert_eq!(rt; four.choose([-2000, 0, 0]), 0);
    assert_eq!(rt; four.choose([2000, 0, 0]), 3);
}

#[test]
fn grey_levels_answer(rt: HostRuntime) {
    let six = GreyLevels::new(6);
    assert_eq!(rt; count_grey(&six), 6);
    assert_eq!(rt; grey_tone(&six, 5).light, 255);
    assert_eq!(rt; six.tone(6).light, 0);
    assert_eq!(rt; six.spread(), Some(25));
    assert_eq!(rt; new_grey(3).count(), 2);
    assert_eq!(rt; GreyLevels::new(256).spread(), Some(0));
}

#[test]
fn colour_levels_take_the_nearest(rt: HostRuntime) {
    let two = ColourLevels::new(2);
    assert_eq!(rt; choose_colour(&two, [200, 10, 128]), 5);
    assert_eq!(rt; count_colour(&two), 8);
    assert_eq!(rt; colour_tone(&two, 5).channel(1), 0);
    assert_eq!(rt; two.tone(5).channel(2), 255);
    assert_eq!(rt; two.tone(8).channel(0), 0);
    assert_eq!(rt; new_colour(16).count(), 8);
}

#[test]
fn lists_take_the_lowest_number_on_a_tie(rt: HostRuntime) {
    let ten = Grey::build([10, 0, 0]);
    let twenty = Grey::build([20, 0, 0]);
    let rising = [ten, twenty];
    let falling = [twenty, ten];
    assert_eq!(rt; InkList::new(&rising).choose([15, 0, 0]), 0);
    assert_eq!(rt; InkList::new(&falling).choose([15, 0, 0]), 0);
    assert_eq!(rt; InkList::new(&rising).choose([16, 0, 0]), 1);
    assert_eq!(rt; InkList::new(&rising).spread(), None);
}

#[test]
fn lists_choose_for_values_past_255(rt: HostRuntime) {
    let inks = [Colour::build([255, 100, 0]), Colour::build([200, 0, 0])];
    assert_eq!(rt; InkList::new(&inks).choose([510, 0, 0]), 0);
    assert_eq!(rt; InkList::new(&inks).choose([255, 0, 0]), 1);
}

#[test]
fn lists_have_one_ink_at_least_and_256_at_most(rt: HostRuntime) {
    let none: [Grey; 0] = [];
    assert_eq!(rt; InkList::new(&none).count(), 1);
    assert_eq!(rt; InkList::new(&none).tone(7).light, 0);
    assert_eq!(rt; InkList::new(&none).choose([255, 0, 0]), 0);
    let many = [Grey::build([9, 0, 0]); 300];
    assert_eq!(rt; InkList::new(&many).count(), 256);
}
