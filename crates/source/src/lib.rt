// Sources of a page, and layers over a source.
//
// A source means a page: its size, and at each place a tone or a missing place. `Chart` is a source
// that needs no file; `Crop` and `Negative` are layers, which hold the source below by value and are
// sources themselves, so that they stack to any height.
#![tactic(auto)]

pub mod chart;
pub mod crop;
pub mod fault;
pub mod layer;
pub mod negative;
pub mod sources;

pub use chart::Chart;
pub use crop::{Crop, Window};
pub use fault::{Fault, Spot};
pub use layer::layer_above;
pub use negative::Negative;
pub use sources::Source;
