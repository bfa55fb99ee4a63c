// Equal steps in one channel.
ghost use Rattle.std.specs.Prelude.{◌≡◌, ◌/◌, ◌≤◌};
ghost use Rattle.ink.specs.LevelRules.{level};

// x / d. The divisors that sets of levels have are written out: to divide by a constant takes no division, and the
// choice of an ink lies on the way from each cell to the next.
pub(crate) fn quotient(x: u16, d: u16) -> u16
    requires { 1 ≤ d }
    ensures { result ≡ x / d }
{
    match d {
        255 => x / 255,
        85 => x / 85,
        51 => x / 51,
        17 => x / 17,
        15 => x / 15,
        6 => x / 6,
        5 => x / 5,
        4 => x / 4,
        3 => x / 3,
        2 => x / 2,
        _ => x / d,
    }
}

// The index of the level nearest to a value, where levels are `gap` apart.
pub(crate) fn nearest_level(value: i32, gap: u16) -> u16
    requires { (1 ≤ gap) × (gap ≤ 255) }
    ensures { result ≡ level gap value }
{
    // a byte after the clamp
    let byte = value.clamp(0, 255) as u16;
    quotient(byte + gap / 2, gap)
}
