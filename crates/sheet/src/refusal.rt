// Why a call on a sheet is refused.
ghost use Rattle.std.specs.Prelude.{Some};
ghost use Rattle.sheet.specs.Refusals.{refusal_text};

use std::error::Error;
use std::fmt;

#[derive(Clone, Copy, PartialEq, Eq, Debug)]
pub enum Refusal {
    // A point is not on the sheet.
    OffSheet,
    // No assignment of values obeys the line and the table.
    Contrary,
}

// By hand: what `thiserror` writes has no contract.
impl fmt::Display for Refusal {
    ghost output = { λ refusal. Some (refusal_text refusal) };

    fn fmt<W: fmt::Write>(&self, f: &mut fmt::Formatter<W>) -> fmt::Result {
        f.write_str(match self {
            Refusal::OffSheet => "a point is not on the sheet",
            Refusal::Contrary => "the line is contrary to the table",
        })
    }
}

impl Error for Refusal {}
