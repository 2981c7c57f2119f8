// Words: short texts, how they are compared, cut, written and read.
#![tactic(auto)]

mod bytes;
mod numbers;
mod parts;
mod word;
mod written;

pub use bytes::same_bytes;
pub use numbers::read_number;
pub use parts::cut;
pub use word::Word;
