// A set of the tones in a list that the caller lends: at most 256 of them.
ghost use Rattle.std.specs.Prelude.{◌≤◌, length};

pub mod calls;

#[derive(Drop)]
pub struct InkList<'a, T> {
    inks: &'a [T],
    ghost few: { length inks.now ≤ 256 },
}
