// Tests of the page writer over real sheets and ink sets.
#![tactic(auto)]

#[cfg(test)]
mod bitmaps;
#[cfg(test)]
mod tones;
