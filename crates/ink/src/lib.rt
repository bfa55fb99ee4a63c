// Ink sets: the inks that a page may be printed with, and which of them is chosen for a tone.
//
// `InkSet` is the interface that jobs and the page writer are written against. `Levels<T>` has equal steps in each
// channel, for each kind of tone that is `Levelled`; `GreyLevels` and `ColourLevels` are its names for grey and colour.
// `InkList` has any tones that the caller lists.
#![tactic(auto)]

pub mod levels;
pub mod list;
mod nearness;
pub mod sets;
mod steps;
pub mod values;

pub use levels::{ColourLevels, GreyLevels, Levelled, Levels};
pub use list::InkList;
pub use sets::InkSet;
pub use values::{HIGHEST, LOWEST, limit, limit_all};

#[cfg(test)]
mod tests;
