// A word of at most 32 bytes. It is `Copy` and takes no memory, which neither a `Vec` nor an `ArrayVec` can.
ghost use Rattle.std.specs.Prelude.{◌≡◌, ◌≤◌, ◌++◌, length, take};

use std::marker::Model;

#[derive(Clone, Copy, Debug, PartialEq, Eq)]
pub struct Word {
    bytes: [u8; 32],
    len: usize,
}

// A word is the list of its bytes. Zeros follow them, so that the bytes tell the whole of it.
impl Model for Word {
    ghost use Rattle.std.specs.Prelude.{ℕ, List, take, length};
    ghost use Rattle.std.proofs.Common.{ap};
    ghost use Rattle.words.specs.Padded.{Padded, padded, restored};

    ghost Value = { List ℕ };

    ghost view = { λ w. take w.len w.bytes };

    ghost invariant = { λ w. Padded w.bytes w.len };

    ghost inverse = { λ text. record { bytes = padded text; len = length text } };

    ghost inverse_ok = { λ w p. ap (λ both. record { bytes = both.0; len = both.1 }) (restored w.bytes w.len p) };
}

impl Word {
    // The first 32 bytes of a text, as a word. Through `append` it takes twice the time.
    pub fn of(text: &[u8]) -> Word
        ensures { result ≡ take 32 text.now }
    {
        let mut bytes = [0; 32];
        let len = text.len().min(32);
        bytes[..len].copy_from_slice(&text[..len]);
        Word { bytes, len }
    }

    // Adds what there is room for.
    pub fn append(&mut self, text: &[u8])
        ensures { self.new ≡ take 32 (self.old ++ text.now) }
    {
        let more = text.len().min(32 - self.len);
        self.bytes[self.len..self.len + more].copy_from_slice(&text[..more]);
        self.len += more;
    }

    pub fn as_slice(&self) -> &[u8]
        ensures bytes { result.now ≡ self.now }
        ensures short { length self.now ≤ 32 }
    {
        &self.bytes[..self.len]
    }
}
