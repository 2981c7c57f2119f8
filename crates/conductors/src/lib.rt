// Kinds whose relations are the orders of a few conductors.
#![tactic(auto)]

mod count;
mod masks;
mod orders;
mod phases;
mod spelling;
mod three;

pub use count::Conductors;
pub use phases::{Orders, Phases};
pub use three::Three;
