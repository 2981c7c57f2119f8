// What is wrong with a field that should be a word.
ghost use Rattle.std.specs.Prelude.{Some, codes};

use std::error::Error;
use std::fmt;

#[derive(Clone, Copy, PartialEq, Eq, Debug)]
pub enum WordFault {
    NotAWord,
}

// By hand: what `thiserror` writes has no contract.
impl fmt::Display for WordFault {
    ghost output = { λ _. Some (codes "no word of this kind") };

    fn fmt<W: fmt::Write>(&self, f: &mut fmt::Formatter<W>) -> fmt::Result {
        f.write_str("no word of this kind")
    }
}

impl Error for WordFault {}
