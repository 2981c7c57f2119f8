// A book with the count of its lines.
use book::{Book, print_reply};
use std::alloc::AllocError;

#[derive(Drop)]
pub struct Desk<'a> {
    book: Book<'a>,
    lines: u32,
}

impl<'a> Desk<'a> {
    pub fn new(book: Book<'a>) -> Desk<'a> {
        Desk { book, lines: 0 }
    }

    // Answers one line, and adds what is printed for it.
    pub fn answer(&mut self, line: &[u8], out: &mut Vec<u8>) -> Result<(), AllocError> {
        self.lines = self.lines.saturating_add(1);
        let reply = self.book.enter(line);
        print_reply(out, self.lines, reply)
    }
}
