// A sheet: points of one kind over a caller's memory, and the calls on it.
#![tactic(auto)]

mod calls;
mod entry;
mod opening;
mod refusal;
mod sheet;

pub use entry::{Entry, EntryOf};
pub use opening::open;
pub use refusal::Refusal;
pub use sheet::Sheet;
