// What drum relations do, and the numbers that they go by.
ghost use Rattle.std.specs.Prelude.{◌≡◌, ◌*◌, ◌%◌, ◌≤◌};
ghost use Rattle.drums.specs.Drums.{drum_mult, drum_add, drum_number, drum_act, drum_comp, drum_inv, drum_fixed, inverse251};

use crate::drum::{Drum, LAST, SPAN};
use picks::Pick;

// The fourth power of x modulo 251.
fn fourth(x: u32) -> u32
    requires { x ≤ 250 }
    ensures { result ≡ (x * x % 251) * (x * x % 251) % 251 }
{
    let square = x * x % SPAN;
    square * square % SPAN
}

// The inverse of a modulo 251: since 251 is prime, it is a to the power 249.
fn reciprocal(a: u32) -> u32
    requires { (1 ≤ a) × (a ≤ 250) }
    ensures value { result ≡ inverse251 a }
    ensures some { 1 ≤ result }
    ensures low { result ≤ 250 }
{
    let square = a * a % SPAN;
    let cube = square * a % SPAN;
    let to_15 = fourth(cube) * cube % SPAN;
    let to_62 = fourth(to_15) * square % SPAN;
    fourth(to_62) * a % SPAN
}

impl Drum {
    // Each number stands for one relation. `of` and `number` say more than `From` would.
    pub fn of(n: u32) -> Drum
        ensures { result ≡ drum_number (drum_mult n) (drum_add n) }
    {
        Drum {
            multiplier: n / SPAN % LAST + 1,
            addend: n % SPAN,
        }
    }

    // The least number that stands for the relation.
    pub fn number(self) -> u32
        ensures { result ≡ self }
    {
        (self.multiplier - 1) * SPAN + self.addend
    }

    // This relation after the other, which acts first.
    pub fn after(self, other: Drum) -> Drum
        ensures { result ≡ drum_comp self other }
    {
        Drum {
            multiplier: self.multiplier * other.multiplier % SPAN,
            addend: (self.multiplier * other.addend + self.addend) % SPAN,
        }
    }

    pub fn inverse(self) -> Drum
        ensures { result ≡ drum_inv self }
    {
        let multiplier = reciprocal(self.multiplier);
        Drum {
            multiplier,
            addend: multiplier * (SPAN - self.addend) % SPAN,
        }
    }

    // Where the relation takes v.
    pub fn value_at(self, v: u32) -> u32
        ensures { result ≡ drum_act self (v % 251) }
    {
        (self.multiplier * (v % SPAN) + self.addend) % SPAN
    }

    // The values that the relation takes to themselves.
    pub fn still(self) -> Pick
        ensures { result ≡ drum_fixed self }
    {
        match (self.multiplier, self.addend) {
            (1, 0) => Pick::Any,
            (1, _) => Pick::Nothing,
            (a, b) => Pick::One(reciprocal(SPAN + 1 - a) * b % SPAN),
        }
    }
}
