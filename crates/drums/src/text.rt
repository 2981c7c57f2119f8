// How drums are written and read.
ghost use Rattle.std.specs.Prelude.{◌≡◌};
ghost use Rattle.words.specs.Numbers.{number_named};
ghost use Rattle.drums.specs.DrumWords.{drum_word, both_named, drum_named, value_named};

use crate::drum::{Drum, LAST};
use words::{Word, cut, read_number};

impl Drum {
    pub fn word(self) -> Word
        ensures { result ≡ drum_word self }
    {
        let mut word = Word::decimal(self.multiplier);
        word.append(b"|");
        word.append(Word::decimal(self.addend).as_slice());
        word
    }
}

// The value that a field names.
pub(crate) fn read_value(field: &[u8]) -> Option<u32>
    ensures { result ≡ value_named field.now }
{
    read_number(field).filter(|v| *v <= LAST)
}

// The relation with these two parts.
fn read_parts(first: &[u8], second: &[u8]) -> Option<Drum>
    ensures { result ≡ both_named (number_named first.now) (number_named second.now) }
{
    let multiplier = read_number(first).filter(|a| (1..=LAST).contains(a))?;
    let addend = read_value(second)?;
    Some(Drum { multiplier, addend })
}

// The relation that a field names.
pub(crate) fn read_drum(field: &[u8]) -> Option<Drum>
    ensures { result ≡ drum_named field.now }
{
    let (first, rest) = cut(field, b'|');
    let (second, None) = cut(rest?, b'|') else {
        return None;
    };
    read_parts(first, second)
}
