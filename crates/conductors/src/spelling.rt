// The words of orders and of sets of conductors.
ghost use Rattle.std.specs.Prelude.{◌≡◌, ◌+◌, ◌<◌, ◌++◌, [], ◌∷◌, length, if◌then◌else◌};
ghost use Rattle.std.specs.Option.{ok_or};
ghost use Rattle.std.specs.Str.{bytes_eq};
ghost use Rattle.conductors.specs.OrderWords.{order_word_lem, order_read, order_named, digits, mask_label, mask_read, mask_labelled};
ghost use Rattle.conductors.specs.Masks.{bit};

use crate::count::Count;
use crate::masks::holds;
use crate::orders::place;
use kind::WordFault;
use words::Word;

// Writes v, as the digit of v + 1.
fn write_digit(word: &mut Word, v: u8)
    requires digit { v < 9 }
    requires room { length word.old < 32 }
    ensures { word.new ≡ word.old ++ (49 + v) ∷ [] }
{
    word.append(&[b'1' + v]);
}

// The value, if its word stands in the field.
fn if_word(field: &[u8], value: u8, word: Word) -> Result<u8, WordFault>
    ensures { result ≡ ok_or (if bytes_eq field.now word then Some value else None) WordFault.NotAWord }
{
    if field == word.as_slice() {
        Ok(value)
    } else {
        Err(WordFault::NotAWord)
    }
}

impl Count {
    // The digits of where 1, 2, .. go.
    pub(crate) fn order_word(self, g: u8) -> Word
        ensures { result ≡ order_word_lem self.number g }
    {
        let mut word = Word::of(b"");
        for v in 0..self.number {
            write_digit(&mut word, place(self.number, g, v));
        }
        word
    }

    // The order whose digits stand in the field, if those are the digits of an order.
    fn order_in(self, field: &[u8]) -> u8
        ensures { result ≡ order_read self.number field.now }
    {
        self.order_of(|v| {
            let digit = field.get(usize::from(v)).copied().unwrap_or(0);
            digit.saturating_sub(b'1')
        })
    }

    pub(crate) fn read_order(self, field: &[u8]) -> Result<u8, WordFault>
        ensures { result ≡ ok_or (order_named self.number field.now) WordFault.NotAWord }
    {
        let g = self.order_in(field);
        if_word(field, g, self.order_word(g))
    }

    // The digits of the members of s, rising.
    fn digits_word(self, s: u8) -> Word
        ensures { result ≡ digits (bit s) self.number }
    {
        let mut word = Word::of(b"");
        for v in 0..self.number {
            if holds(s, v) {
                write_digit(&mut word, v);
            }
        }
        word
    }

    pub(crate) fn mask_word(self, s: u8) -> Word
        ensures { result ≡ mask_label self.number s }
    {
        let low = self.members(s);
        if low == self.everything() {
            Word::of(b"any")
        } else if low == 0 {
            Word::of(b"none")
        } else {
            self.digits_word(s)
        }
    }

    // The set whose digits stand in the field, or every value where the field has the `a` of `any`.
    fn mask_in(self, field: &[u8]) -> u8
        ensures { result ≡ mask_read self.number field.now }
    {
        let any = field.contains(&b'a');
        self.set_of(|v| field.contains(&(b'1' + v)) || any)
    }

    pub(crate) fn read_mask(self, field: &[u8]) -> Result<u8, WordFault>
        ensures { result ≡ ok_or (mask_labelled self.number field.now) WordFault.NotAWord }
    {
        let s = self.mask_in(field);
        if_word(field, s, self.mask_word(s))
    }
}
