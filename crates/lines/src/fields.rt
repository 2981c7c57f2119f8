// The fields of a text, which tabs part.
ghost use Rattle.std.specs.Prelude.{◌≡◌};
ghost use Rattle.std.specs.Iterator.{YieldsFirstRef, item_count};
ghost use Rattle.lines.specs.Fields.{fields, remaining};

use words::cut;

const TAB: u8 = 9;

// Not `slice::split`: each function that takes the fields that are left would need `I: Iterator<Item = &'a [u8]> + Drop`, and its
// clauses the runs of I.
#[derive(Drop)]
pub(crate) struct Fields<'a> {
    rest: Option<&'a [u8]>,
}

impl<'a> Fields<'a> {
    pub(crate) fn of(text: &'a [u8]) -> Fields<'a>
        ensures { remaining result.rest ≡ fields text.now }
    {
        Fields { rest: Some(text) }
    }
}

impl<'a> Iterator for Fields<'a> {
    type Item = &'a [u8];

    ghost next_gives = { YieldsFirstRef (λ s. remaining s.rest) };

    ghost remaining = { item_count (λ s. remaining s.rest) };

    fn next(&mut self) -> Option<&'a [u8]> {
        let (field, rest) = cut(self.rest?, TAB);
        self.rest = rest;
        Some(field)
    }
}
