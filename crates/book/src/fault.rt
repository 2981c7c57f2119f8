// What a book refuses a line for. A fault keeps its number on the way up.
ghost use Rattle.std.specs.Prelude.{◌≡◌, Some};
ghost use Rattle.sheet.specs.Calls.{refused};
ghost use Rattle.book.specs.Faults.{book_number};
ghost use Rattle.book.specs.Printed.{told};
ghost use Rattle.book.specs.declared.fault.BookFault.TheVariants.{Read, Call};

use lines::LineFault;
use sheet::Refusal;
use std::error::Error;
use std::fmt;

#[derive(Clone, Copy, PartialEq, Eq, Debug)]
pub enum BookFault {
    // The line cannot be read.
    Read(LineFault),
    // The sheet refuses what the line asks.
    Call(Refusal),
}

impl BookFault {
    // By name, since `u8::from(fault)` would not say which number it is.
    pub fn number(self) -> u8
        ensures { result ≡ book_number self }
    {
        match self {
            BookFault::Read(fault) => fault.number(),
            BookFault::Call(Refusal::OffSheet) => 5,
            BookFault::Call(Refusal::Contrary) => 6,
        }
    }
}

// As it is printed for the line; by hand, since what `thiserror` writes has no contract.
impl fmt::Display for BookFault {
    ghost output = { λ fault. Some (told (refused (book_number fault))) };

    fn fmt<W: fmt::Write>(&self, f: &mut fmt::Formatter<W>) -> fmt::Result {
        let number = self.number();
        write!(f, "refused\t{number}")
    }
}

impl Error for BookFault {}

// By hand as well, since a clause reads `from_gives`.
impl From<LineFault> for BookFault {
    ghost from_gives = { λ fault made. made ≡ Read fault };

    fn from(fault: LineFault) -> BookFault {
        BookFault::Read(fault)
    }
}

impl From<Refusal> for BookFault {
    ghost from_gives = { λ refusal made. made ≡ Call refusal };

    fn from(refusal: Refusal) -> BookFault {
        BookFault::Call(refusal)
    }
}
