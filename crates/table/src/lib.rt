// A table of points: the walk to a reference, and what notes, sightings and questions make of the table.
// A table is a slice of nodes, one a point. Nothing here knows of a kind but its laws.
#![tactic(auto)]

mod combination;
mod looks;
mod node;
mod notes;
mod questions;
mod sightings;
mod storage;
mod walks;

pub use combination::combine;
pub use looks::look;
pub use node::{Node, NodeOf};
pub use notes::{Meeting, is_empty, join, meet};
pub use questions::{Answer, ask};
pub use sightings::{Narrowing, narrow};
pub use storage::{load, new_node, renew, settle, store};
pub use walks::{Route, walk};
