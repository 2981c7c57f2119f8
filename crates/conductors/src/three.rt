// Three conductors.
ghost use Rattle.std.proofs.Common.{rules};

use crate::count::Conductors;

pub struct Three;

// The six orders are the ways to lay a triangle on itself: those of even number turn it, the others flip it over.
impl Conductors for Three {
    ghost many = { 3 };

    ghost some = { Prim.search rules };

    ghost few = { Prim.search rules };

    fn number() -> u8 {
        3
    }

    fn after(g: u8, h: u8) -> u8 {
        let first = h % 6;
        let second = g % 6;
        if second % 2 == 0 {
            (second + first) % 6
        } else {
            (second + 6 - first) % 6
        }
    }

    fn undoing(g: u8) -> u8 {
        let order = g % 6;
        if order % 2 == 0 {
            (6 - order) % 6
        } else {
            order
        }
    }
}
