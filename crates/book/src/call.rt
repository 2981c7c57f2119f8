// A line with its fields read.
ghost use Rattle.std.specs.Prelude.{◌≡◌};
ghost use Rattle.book.specs.Requests.{meant, comparison_of, call_of};
ghost use Rattle.lines.specs.Said.{said_of};

use kind::Kind;
use lines::{Comparison, Line, LineFault, Saying, read_point};

pub(crate) type Call<R, S> = Saying<u8, R, S>;

// Points are read before words, so that a bad point is told first.
pub(crate) fn read_call<K: Kind>(line: Line<'_>) -> Result<Call<K::Relation, K::Set>, LineFault>
    ensures { meant result ≡ call_of K.Kind (said_of line.entry) }
{
    match line {
        Saying::Note(typed) => Ok(Saying::Note(read_comparison::<K>(typed)?)),
        Saying::See { x, set } => {
            let x = read_point(x)?;
            let set = K::read_set(set)?;
            Ok(Saying::See { x, set })
        }
        Saying::Ask(typed) => Ok(Saying::Ask(read_comparison::<K>(typed)?)),
    }
}

fn read_comparison<K: Kind>(
    typed: Comparison<&[u8], &[u8]>,
) -> Result<Comparison<u8, K::Relation>, LineFault>
    ensures { result ≡ comparison_of K.Kind typed.entry.x.now typed.entry.y.now typed.entry.relation.now }
{
    let x = read_point(typed.x)?;
    let y = read_point(typed.y)?;
    let relation = K::read_relation(typed.relation)?;
    Ok(Comparison { x, y, relation })
}
