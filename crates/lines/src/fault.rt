// What is wrong with a line.
ghost use Rattle.std.specs.Prelude.{◌≡◌, Some};
ghost use Rattle.lines.specs.Faults.{line_number, line_text};
ghost use Rattle.lines.specs.declared.fault.LineFault.TheVariants.{Word};

use kind::WordFault;
use std::error::Error;
use std::fmt;

#[derive(Clone, Copy, PartialEq, Eq, Debug)]
pub enum LineFault {
    // The line has more than 64 bytes.
    Long,
    // The sheet or the verb is unknown, or the number of fields is wrong.
    Shape,
    // A point field is no number from 0 to 255 without a leading zero.
    Point,
    // A relation or set field is no word of the sheet's kind.
    Word(WordFault),
}

impl LineFault {
    // By name, since `u8::from(fault)` would not say which number it is.
    pub fn number(self) -> u8
        ensures { result ≡ line_number self }
    {
        match self {
            LineFault::Long => 1,
            LineFault::Shape => 2,
            LineFault::Point => 3,
            LineFault::Word(WordFault::NotAWord) => 4,
        }
    }
}

// By hand: what `thiserror` writes has no contract.
impl fmt::Display for LineFault {
    ghost output = { λ fault. Some (line_text fault) };

    fn fmt<W: fmt::Write>(&self, f: &mut fmt::Formatter<W>) -> fmt::Result {
        f.write_str(match self {
            LineFault::Long => "the line has more than 64 bytes",
            LineFault::Shape =>
                "the sheet or the verb is unknown, or the number of fields is wrong",
            LineFault::Point => "a point is not a number from 0 to 255",
            LineFault::Word(WordFault::NotAWord) =>
                "a relation or a set is not a word of the sheet's kind",
        })
    }
}

impl Error for LineFault {}

// By hand as well, since a clause reads `from_gives`.
impl From<WordFault> for LineFault {
    ghost from_gives = { λ fault made. made ≡ Word fault };

    fn from(fault: WordFault) -> LineFault {
        LineFault::Word(fault)
    }
}
