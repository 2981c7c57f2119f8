// Answering a line on its sheet.
ghost use Rattle.std.specs.Prelude.{◌≡◌, Some};
ghost use Rattle.sheet.specs.Frame.{Keeps, RefusedUnchanged};
ghost use Rattle.sheet.specs.Step.{Step};
ghost use Rattle.sheet.specs.View.{view};
ghost use Rattle.book.specs.Answers.{LineStep, called_outcome, replied, reply_outcome};
ghost use Rattle.book.specs.Printed.{told};
ghost use Rattle.book.specs.Requests.{call_meant};
ghost use Rattle.lines.specs.Said.{said_of};

use crate::call::{Call, read_call};
use crate::fault::BookFault;
use kind::Kind;
use lines::{Line, Saying};
use sheet::{Refusal, Sheet};
use std::fmt;
use table::Answer;

// No Option of an answer: `Ok(None)` would not say that a line is accepted.
#[derive(Clone, Copy, PartialEq, Eq, Debug)]
pub enum Reply {
    Accepted,
    Answered(Answer),
}

impl Reply {
    // As it is printed.
    pub(crate) fn text(self) -> &'static str
        ensures { result.now ≡ told (reply_outcome self) }
    {
        match self {
            Reply::Accepted => "ok",
            Reply::Answered(answer) => answer.word(),
        }
    }
}

impl fmt::Display for Reply {
    ghost output = { λ reply. Some (told (reply_outcome reply)) };

    fn fmt<W: fmt::Write>(&self, f: &mut fmt::Formatter<W>) -> fmt::Result {
        f.write_str(self.text())
    }
}

fn take<K: Kind>(
    sheet: &mut Sheet<'_, K>,
    call: Call<K::Relation, K::Set>,
) -> Result<Reply, Refusal>
    ensures step { Step K.Kind (view sheet.old) (call_meant call) (called_outcome result) (view sheet.new) }
    ensures unchanged { RefusedUnchanged result sheet.old sheet.new }
    ensures keeps { Keeps sheet.old sheet.new }
{
    let reply = match call {
        Saying::Note(c) => {
            sheet.note(c.x, c.y, c.relation)?;
            Reply::Accepted
        }
        Saying::See { x, set } => {
            sheet.see(x, set)?;
            Reply::Accepted
        }
        Saying::Ask(c) => Reply::Answered(sheet.ask(c.x, c.y, c.relation)?),
    };
    Ok(reply)
}

pub(crate) fn answer<K: Kind>(sheet: &mut Sheet<'_, K>, line: Line<'_>) -> Result<Reply, BookFault>
    ensures step { LineStep K.Kind (view sheet.old) (said_of line.entry) (replied result) (view sheet.new) }
    ensures unchanged { RefusedUnchanged result sheet.old sheet.new }
    ensures keeps { Keeps sheet.old sheet.new }
{
    let call = read_call::<K>(line)?;
    let reply = take(sheet, call)?;
    Ok(reply)
}
