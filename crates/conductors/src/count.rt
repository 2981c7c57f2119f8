// How many conductors there are.
ghost use Rattle.std.specs.Prelude.{◌≡◌, ℕ, ◌<◌, ◌≤◌};
ghost use Rattle.conductors.specs.Orders.{order_comp, order_inv};

// A number of conductors. It may have a quicker way to compose its orders than the one for every number.
pub trait Conductors {
    ghost many: { ℕ };

    fn number() -> u8
        ensures { result ≡ many };

    // The order that does h, and then g.
    fn after(g: u8, h: u8) -> u8
        ensures { result ≡ order_comp many g h }
    {
        Count::new(Self::number()).composed(g, h)
    }

    // The order that undoes g.
    fn undoing(g: u8) -> u8
        ensures { result ≡ order_inv many g }
    {
        Count::new(Self::number()).inverted(g)
    }

    ghost some: { 0 < many };

    ghost few: { many ≤ 4 };
}

// The number as a value. It is so small that the number of each order fits a byte.
#[derive(Clone, Copy)]
pub(crate) struct Count {
    pub(crate) number: u8,
    ghost few: { number ≤ 4 },
}

impl Count {
    pub(crate) fn new(number: u8) -> Count
        requires { number ≤ 4 }
        ensures { result.number ≡ number }
    {
        Count { number }
    }
}
