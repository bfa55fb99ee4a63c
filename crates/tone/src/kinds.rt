// The two kinds of tone that Netpbm has pages for.
ghost use Rattle.std.specs.Prelude.{◌≤◌};

// One channel.
#[derive(Clone, Copy, PartialEq, Eq, Debug)]
pub struct Grey {
    pub light: u8,
    ghost byte: { light ≤ 255 },
}

// Channel 0 is red, 1 is green, 2 is blue.
#[derive(Clone, Copy, PartialEq, Eq, Debug)]
pub struct Colour {
    pub red: u8,
    pub green: u8,
    pub blue: u8,
    ghost bytes: { (red ≤ 255) × (green ≤ 255) × (blue ≤ 255) },
}
