// A book of sheets, and the lines that it is asked in.
#![tactic(auto)]

mod answer;
mod book;
mod call;
mod fault;
mod memory;
mod printing;

pub use answer::Reply;
pub use book::Book;
pub use fault::BookFault;
pub use memory::{Memory, SheetMemory};
pub use printing::print_reply;
