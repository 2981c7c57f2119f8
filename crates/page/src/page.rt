// A page over a caller's bytes. It uses the first 65,536 of them.
ghost use Rattle.std.specs.Prelude.{◌≡◌, MatchResult};
ghost use Rattle.page.specs.Adding.{bytes_with, mark_with};
ghost use Rattle.page.specs.Filled.{filled, wrote};
ghost use Rattle.page.specs.Pages.{page_view, Blank, SamePlace, Emptied};
ghost use Rattle.page.specs.Writing.{told};

use crate::full::PageFull;
use crate::guard::Guard;
use crate::putting::{limit, wipe};

// The fields are open, so that a guard can be made over them. The memory is lent, so a mark stands beside it.
#[derive(Drop)]
pub struct Page<'a> {
    pub bytes: &'a mut [u8],
    pub mark: usize,
}

impl<'a> Page<'a> {
    // A page with nothing on it, over zeros.
    pub fn new(bytes: &'a mut [u8]) -> Page<'a>
        ensures { Emptied bytes.entry result }
    {
        wipe(bytes, 0);
        Page { bytes, mark: 0 }
    }

    // Nothing on it, and zeros again.
    pub fn clear(&mut self)
        ensures { Emptied self.old.bytes self.new }
    {
        wipe(self.bytes, 0);
        self.mark = 0;
    }

    // Writes a whole text at the mark, or leaves the page as it was.
    pub fn add(&mut self, text: &[u8]) -> Result<(), PageFull>
        ensures answer { result ≡ told self.old.bytes.now self.old.mark text.now }
        ensures bytes { self.new.bytes.now ≡ bytes_with self.old.bytes.now self.old.mark text.now }
        ensures mark { self.new.mark ≡ mark_with self.old.bytes.now self.old.mark text.now }
        ensures view { MatchResult result (λ _. page_view self.new ≡ wrote (page_view self.old) text.now) (λ _. Blank self.old → page_view self.new ≡ page_view self.old) }
        ensures blank { Blank self.old → Blank self.new }
        ensures place { SamePlace self.old.bytes self.new.bytes }
    {
        let mut guard = Guard::start(self.bytes, &mut self.mark);
        guard.write(text)?;
        guard.finish();
        Ok(())
    }

    // What was written, up to the mark.
    pub fn text(&self) -> &[u8]
        ensures { result.now ≡ filled (page_view self.now) }
    {
        let end = limit(self.bytes).min(self.mark);
        &self.bytes[..end]
    }
}
