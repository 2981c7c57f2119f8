// Reading numbers.
ghost use Rattle.std.specs.Prelude.{◌≡◌};
ghost use Rattle.words.specs.Numbers.{number_named};

// The number below 2 ^ 32 that the field writes, in digits without a leading zero. Digit by digit: `from_utf8` and `parse`, which also
// takes a plus sign and leading zeros, were tried, and make a line a third dearer.
pub fn read_number(field: &[u8]) -> Option<u32>
    ensures { result ≡ number_named field.now }
{
    if field.is_empty() || field.len() > 10 || (field.len() > 1 && field[0] == b'0') {
        return None;
    }
    let mut number: u64 = 0;
    for b in field {
        if !b.is_ascii_digit() {
            return None;
        }
        number = number * 10 + u64::from(*b - b'0');
    }
    u32::try_from(number).ok()
}
