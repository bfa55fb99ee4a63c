// A page as text: a mark for each place, and the first place that is missing.
#![tactic(auto)]

pub mod looking;
pub mod view;

pub use looking::look;
pub use view::View;
