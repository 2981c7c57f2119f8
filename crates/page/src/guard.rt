// A listing under way over the bytes of a page and its mark.
ghost use Rattle.std.specs.Prelude.{◌≡◌, Err};
ghost use Rattle.page.specs.Wiped.{wiped};
ghost use Rattle.page.specs.Writing.{told, Writes};
ghost use Rattle.page.specs.declared.full.PageFull.TheVariants.{Full};

use crate::full::PageFull;
use crate::putting::{put, wipe};

pub struct Guard<'p> {
    bytes: &'p mut [u8],
    mark: &'p mut usize,
    old: usize,
}

// At every way out but `finish`, the mark and the zeros are put back.
impl Drop for Guard<'_> {
    fn drop(self)
        ensures bytes { self.exit.0.now ≡ wiped self.entry.bytes.now self.entry.old }
        ensures mark { self.exit.1.0.now ≡ self.entry.old }
    {
        let Guard { bytes, mark, old } = self;
        wipe(bytes, old);
        *mark = old;
    }
}

impl<'p> Guard<'p> {
    // A listing that begins at the mark.
    pub fn start(bytes: &'p mut [u8], mark: &'p mut usize) -> Guard<'p>
        ensures bytes { result.bytes.now ≡ bytes.old }
        ensures mark { result.mark.now ≡ mark.old }
        ensures old { result.old ≡ mark.old }
        ensures lent { result.bytes.ghost_name ≡ bytes.entry.ghost_name }
        ensures lent_mark { result.mark.ghost_name ≡ mark.entry.ghost_name }
    {
        let old = *mark;
        Guard { bytes, mark, old }
    }

    // Writes a whole text at the mark, or nothing.
    pub fn write(&mut self, text: &[u8]) -> Result<(), PageFull>
        ensures answer { result ≡ told self.entry.now.bytes.now self.entry.now.mark.now text.now }
        ensures writes { Writes self.entry.now self.exit.now text.now result }
        ensures nothing { result ≡ Err Full → self.exit.now ≡ self.entry.now }
    {
        let at = *self.mark;
        put(self.bytes, at, text)?;
        *self.mark = at + text.len();
        Ok(())
    }

    // Keeps what was written.
    pub fn finish(self)
        ensures bytes { self.exit.0.now ≡ self.entry.bytes.now }
        ensures mark { self.exit.1.0.now ≡ self.entry.mark.now }
    {
        // A forgotten value would tell nothing of what it lent, so the fields are let go one by one.
        let Guard {
            bytes: _,
            mark: _,
            old: _,
        } = self;
    }
}
