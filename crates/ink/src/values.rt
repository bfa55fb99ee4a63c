// The values that an ink is chosen for: a tone with errors added may pass 0..255 on either side, and is limited
// to LOWEST..HIGHEST before the choice.
ghost use Rattle.std.specs.Prelude.{◌≡◌, map};
ghost use Rattle.ink.specs.Values.{limited};

pub const LOWEST: i32 = -255;

pub const HIGHEST: i32 = 510;

// The value limited to LOWEST..HIGHEST.
pub fn limit(value: i32) -> i32
    ensures { result ≡ limited value }
{
    value.clamp(LOWEST, HIGHEST)
}

// All three values limited.
pub fn limit_all(values: [i32; 3]) -> [i32; 3]
    ensures { result ≡ map limited values }
{
    values.map(limit)
}
