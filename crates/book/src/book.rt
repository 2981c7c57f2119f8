// The book: a sheet for each kind, and lines answered on them.
ghost use Rattle.std.specs.Prelude.{◌≡◌};
ghost use Rattle.book.specs.Answers.{replied};
ghost use Rattle.book.specs.Book.{new_book, book_view, BookStep, BookUnchanged, BookKeeps};

use crate::answer::{Reply, answer};
use crate::fault::BookFault;
use crate::memory::Memory;
use conductors::Phases;
use drums::Drums;
use layers::FarEnd;
use leads::Leads;
use lines::{SheetName, read_line};
use sheet::Sheet;
use temps::Temps;

#[derive(Drop)]
pub struct Book<'a> {
    leads: Sheet<'a, Leads>,
    phases: Sheet<'a, Phases>,
    drums: Sheet<'a, FarEnd<Drums>>,
    temps: Sheet<'a, Temps>,
}

impl<'a> Book<'a> {
    pub fn open(memory: &'a mut Memory) -> Book<'a>
        ensures { book_view result ≡ new_book }
    {
        Book {
            leads: memory.leads.open(0),
            phases: memory.phases.open(1),
            drums: memory.drums.open(2),
            temps: memory.temps.open(3),
        }
    }

    // Answers a line, which comes without its line feed.
    pub fn enter(&mut self, text: &[u8]) -> Result<Reply, BookFault>
        ensures step { BookStep (book_view self.old) text.now (replied result) (book_view self.new) }
        ensures unchanged { BookUnchanged result self.old self.new }
        ensures keeps { BookKeeps self.old self.new }
    {
        let request = read_line(text)?;
        // Each sheet has a type of its own, and a table of closures over them would be no plainer
        match request.sheet {
            SheetName::Leads => answer(&mut self.leads, request.line),
            SheetName::Phases => answer(&mut self.phases, request.line),
            SheetName::Drums => answer(&mut self.drums, request.line),
            SheetName::Temps => answer(&mut self.temps, request.line),
        }
    }
}
