// A sheet in memory that the caller lends: its rows one after the other, each packed in bytes.
ghost use Rattle.std.specs.Prelude.{◌≡◌, ℕ, ◌*◌, ◌<◌, ◌≤◌, length, drop};
ghost use Rattle.sheet.specs.Limits.{max_width, max_height};
ghost use Rattle.sheet.specs.Memory.{lent_ink, lent_memory};

use crate::packings::Packing;
use std::marker::PhantomData;

pub mod calls;

#[derive(Drop)]
pub struct LentSheet<'a, P: Packing> {
    memory: &'a mut [u8],
    width: u16,
    height: u16,
    packing: PhantomData<P>,
    ghost wide: { width ≤ max_width },
    ghost high: { height ≤ max_height },
    ghost room: { P.meaning.stride width * height ≤ length memory.now },
    ghost below: { (row column : ℕ) → row < height → column < width
        → lent_ink P.meaning memory.now width row column < P.meaning.limit },
    // the memory is the packed inks, with nothing else in their bytes, and then what stands past them
    ghost packed: { memory.now ≡ lent_memory P.meaning width height (lent_ink P.meaning memory.now width)
        (drop (P.meaning.stride width * height) memory.now) },
}
