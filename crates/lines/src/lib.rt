// Lines as they are typed: their fields, the sheet and the verb that they name, and their points.
#![tactic(auto)]

mod fault;
mod fields;
mod line;
mod point;
mod saying;

pub use fault::LineFault;
pub use line::{Request, SheetName, read_line};
pub use point::read_point;
pub use saying::{Comparison, Line, Saying};
