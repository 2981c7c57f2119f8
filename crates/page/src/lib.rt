// A page: bytes that are filled from the start up to a mark, and the guard of a listing under way.
#![tactic(auto)]

mod full;
mod guard;
mod page;
mod putting;

pub use full::PageFull;
pub use guard::Guard;
pub use page::Page;
