// Two kinds of tone that no page file has.
ghost use Rattle.std.specs.Prelude.{◌≤◌};

// Two channels.
#[derive(Clone, Copy, PartialEq, Eq, Debug)]
pub struct Pair {
    pub first: u8,
    pub second: u8,
    ghost bytes: { (first ≤ 255) × (second ≤ 255) },
}

// One channel, and a mark that belongs to none. A tone that is built has the mark 0.
#[derive(Clone, Copy, PartialEq, Eq, Debug)]
pub struct Marked {
    pub light: u8,
    pub mark: u32,
    ghost byte: { light ≤ 255 },
}
