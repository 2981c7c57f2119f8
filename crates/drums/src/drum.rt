// A drum relation: it takes v to (multiplier × v + addend) mod 251.
use std::marker::Model;

// How many values there are: a prime number.
pub(crate) const SPAN: u32 = 251;

// The greatest value.
pub(crate) const LAST: u32 = 250;

#[derive(Clone, Copy, Debug, PartialEq, Eq)]
pub struct Drum {
    pub multiplier: u32,
    pub addend: u32,
}

// A clause sees a drum relation as the least number that stands for it.
impl Model for Drum {
    ghost use Rattle.std.specs.Prelude.{ℕ};
    ghost use Rattle.std.proofs.Common.{ap};
    ghost use Rattle.drums.specs.Drums.{drum_mult, drum_add, drum_number, InRange};
    ghost use Rattle.drums.specs.DrumLaws.{number_parts};

    ghost Value = { ℕ };

    ghost view = { λ d. drum_number d.multiplier d.addend };

    ghost invariant = { λ d. InRange d.multiplier d.addend };

    ghost inverse = { λ n. record { multiplier = drum_mult n; addend = drum_add n } };

    ghost inverse_ok = { λ d range. ap (λ parts. record { multiplier = parts.0; addend = parts.1 }) (number_parts d.multiplier d.addend range) };
}
