// What a line asks for.
ghost use Rattle.std.specs.Prelude.{◌≡◌};
ghost use Rattle.std.specs.Option.{ok_or};
ghost use Rattle.lines.specs.Fields.{remaining, two, three};
ghost use Rattle.lines.specs.Said.{with, see, sheet_named, compared, said_of, said_by, heard, parse};
ghost use Rattle.lines.specs.declared.fault.LineFault.TheVariants.{Shape};

use crate::fault::LineFault;
use crate::fields::Fields;
use crate::saying::{Comparison, Line, Saying};

#[derive(Clone, Copy, PartialEq, Eq, Debug)]
pub enum SheetName {
    Leads,
    Phases,
    Drums,
    Temps,
}

#[derive(Clone, Copy, PartialEq, Eq, Debug)]
pub struct Request<'a> {
    pub sheet: SheetName,
    pub line: Line<'a>,
}

const LONGEST: usize = 64;

// The line that a text is, without its line feed.
pub fn read_line(text: &[u8]) -> Result<Request<'_>, LineFault>
    ensures { heard result ≡ parse text.now }
{
    if text.len() > LONGEST {
        return Err(LineFault::Long);
    }
    let mut fields = Fields::of(text);
    let (Some(name), Some(verb)) = (fields.next(), fields.next()) else {
        return Err(LineFault::Shape);
    };
    let sheet = read_sheet(name)?;
    let line = line_of(verb, fields)?;
    Ok(Request { sheet, line })
}

// No `TryFrom`, which would say the same in more lines.
fn read_sheet(name: &[u8]) -> Result<SheetName, LineFault>
    ensures { result ≡ ok_or (sheet_named name.now) Shape }
{
    match name {
        b"leads" => Ok(SheetName::Leads),
        b"phases" => Ok(SheetName::Phases),
        b"drums" => Ok(SheetName::Drums),
        b"temps" => Ok(SheetName::Temps),
        _ => Err(LineFault::Shape),
    }
}

// What a verb says with the fields that follow it.
fn line_of<'a>(verb: &[u8], fields: Fields<'a>) -> Result<Line<'a>, LineFault>
    ensures { with said_of result ≡ said_by verb.now (remaining fields.entry.rest) }
{
    match verb {
        b"note" => Ok(Saying::Note(comparison(fields)?)),
        b"see" => sighting(fields),
        b"ask" => Ok(Saying::Ask(comparison(fields)?)),
        _ => Err(LineFault::Shape),
    }
}

// The comparison that three fields are.
fn comparison<'a>(mut fields: Fields<'a>) -> Result<Comparison<&'a [u8], &'a [u8]>, LineFault>
    ensures { with compared result ≡ three (remaining fields.entry.rest) }
{
    let (Some(x), Some(y), Some(relation), None) = (
        fields.next(),
        fields.next(),
        fields.next(),
        fields.next(),
    ) else {
        return Err(LineFault::Shape);
    };
    Ok(Comparison { x, y, relation })
}

// The sighting that two fields are.
fn sighting(mut fields: Fields<'_>) -> Result<Line<'_>, LineFault>
    ensures { with said_of result ≡ with (λ t. see t.0 t.1) (two (remaining fields.entry.rest)) }
{
    let (Some(x), Some(set), None) = (fields.next(), fields.next(), fields.next()) else {
        return Err(LineFault::Shape);
    };
    Ok(Saying::See { x, set })
}
