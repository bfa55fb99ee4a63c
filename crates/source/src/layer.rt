// The numbers of layers: the bottom is 0, and each layer is one more than the one below.
ghost use Rattle.std.specs.Prelude.{◌≡◌};
ghost use Rattle.source.specs.Layers.{above};

// Where the numbers stop: every layer above has this one too.
pub const TOP_LAYER: u16 = u16::MAX;

// The number of the layer over the layer `below`.
pub fn layer_above(below: u16) -> u16
    ensures { result ≡ above below }
{
    below.checked_add(1).unwrap_or(TOP_LAYER)
}
