// The page has no room for a text.
ghost use Rattle.std.specs.Prelude.{codes, Some};

use std::error::Error;
use std::fmt;

#[derive(Clone, Copy, PartialEq, Eq, Debug)]
pub enum PageFull {
    Full,
}

// By hand: what `thiserror` writes has no contract.
impl fmt::Display for PageFull {
    ghost output = { λ _. Some (codes "the page is full") };

    fn fmt<W: fmt::Write>(&self, f: &mut fmt::Formatter<W>) -> fmt::Result {
        f.write_str("the page is full")
    }
}

impl Error for PageFull {}
