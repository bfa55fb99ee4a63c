// Tests of pages from outside the crates that read and show them: tones, sources, layers and the
// Netpbm reader together, through their public calls alone. Every expected value is worked out by
// hand from the rules.
//
// The crate itself holds what the tests need: `Seen` and `Outcome`, answers in a form that a table can
// hold, two kinds of tone that no other crate knows, and a bottom with a layer number of its own.
#![tactic(auto)]

pub mod flat;
pub mod kinds;
pub mod outcome;
pub mod seen;
#[cfg(test)]
mod test_charts;
#[cfg(test)]
mod test_crops;
#[cfg(test)]
mod test_faults;
#[cfg(test)]
mod test_headers;
#[cfg(test)]
mod test_kinds;
#[cfg(test)]
mod test_layers;
#[cfg(test)]
mod test_rasters;
pub mod tones;
