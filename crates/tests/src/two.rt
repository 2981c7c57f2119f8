// Two conductors, as a builder adds them.
ghost use Rattle.std.proofs.Common.{rules};

use conductors::Conductors;

pub struct Two;

impl Conductors for Two {
    ghost many = { 2 };

    ghost some = { Prim.search rules };

    ghost few = { Prim.search rules };

    fn number() -> u8 {
        2
    }
}
