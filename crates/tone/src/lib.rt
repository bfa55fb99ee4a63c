// Kinds of tone. A tone has one to three channels, each 0 to 255, where 255 is full light.
//
// `Tone` is the interface that everything above is written against: sources, ink sets, readers and
// jobs take any kind. `Grey` has one channel, `Colour` has red, green and blue.
#![tactic(auto)]

pub mod kinds;
pub mod tones;

pub use kinds::{Colour, Grey};
pub use tones::Tone;
