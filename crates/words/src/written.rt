// Writing numbers.
ghost use Rattle.std.specs.Prelude.{◌≡◌, decimal};
ghost use Rattle.std.specs.Fmt.{signed_decimal};

use crate::word::Word;

impl Word {
    pub fn decimal(n: u32) -> Word
        ensures { result ≡ decimal n }
    {
        // The digits fill the array from its end.
        let mut digits = [0; 10];
        let mut at = 9;
        let mut front = n;
        while front >= 10 {
            digits[at] = b'0' + (front % 10) as u8;
            front /= 10;
            at -= 1;
        }
        digits[at] = b'0' + front as u8;
        Word::of(&digits[at..])
    }

    pub fn signed(z: i32) -> Word
        ensures { result ≡ signed_decimal z }
    {
        if z >= 0 {
            return Word::decimal(z as u32);
        }
        let mut word = Word::of(b"-");
        word.append(Word::decimal(z.unsigned_abs()).as_slice());
        word
    }
}
