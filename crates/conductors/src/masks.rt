// Sets of conductors as bits.
ghost use Rattle.std.specs.Prelude.{◌≡◌, ℕ, Bool, ◌%◌, ◌^◌, ◌<◌};
ghost use Rattle.conductors.specs.Below.{TakesBelow, GivesBelow};
ghost use Rattle.conductors.specs.Masks.{bit, mask, mask_full, mask_shift, mask_fixed, mask_inside, mask_count};

use crate::count::Count;
use crate::orders::{place, source};

pub(crate) fn holds(s: u8, v: u8) -> bool
    requires { v < 4 }
    ensures { result ≡ bit s v }
{
    (s >> v) % 2 == 1
}

impl Count {
    // Every value below the number.
    pub(crate) fn everything(self) -> u8
        ensures { result ≡ mask_full self.number }
    {
        (1 << self.number) - 1
    }

    // The values of s that are below the number.
    pub(crate) fn members(self, s: u8) -> u8
        ensures { result ≡ s % 2 ^ self.number }
    {
        s & self.everything()
    }

    // The values v below the number for which belongs(v).
    pub(crate) fn set_of<F: Fn(u8) -> bool>(self, belongs: F) -> u8
        requires { TakesBelow (F.pre belongs) self.number }
        ensures { (p : ℕ → Bool) → GivesBelow (F.post belongs) p self.number → result ≡ mask p self.number }
    {
        let mut s = 0;
        for v in 0..self.number {
            if belongs(v) {
                s |= 1 << v;
            }
        }
        s
    }

    // The values to which order g takes those of s.
    pub(crate) fn shifted(self, g: u8, s: u8) -> u8
        ensures { result ≡ mask_shift self.number g s }
    {
        self.set_of(|v| holds(s, source(self.number, g, v)))
    }

    // The values that order g takes to themselves.
    pub(crate) fn unmoved(self, g: u8) -> u8
        ensures { result ≡ mask_fixed self.number g }
    {
        self.set_of(|v| place(self.number, g, v) == v)
    }

    pub(crate) fn includes(self, s: u8, t: u8) -> bool
        ensures { result ≡ mask_inside self.number s t }
    {
        self.members(s & t) == self.members(s)
    }

    pub(crate) fn size(self, s: u8) -> u16
        ensures { result ≡ mask_count self.number s }
    {
        // At most 4: `u16::try_from` would need an error that cannot come
        self.members(s).count_ones() as u16
    }
}
