// Kernels: where the error of a cell goes, and in what shares.
#![tactic(auto)]

pub mod set;
pub mod shape;
pub mod tables;
pub mod tap;
#[cfg(test)]
mod tests;

pub use set::{refusals_checked, tables_checked};
pub use shape::Kernel;
pub use tables::Published;
pub use tap::{KernelFault, Tap};
