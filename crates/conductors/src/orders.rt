// The arithmetic of orders.
ghost use Rattle.std.specs.Prelude.{◌≡◌, ℕ, ◌<◌, slice_index};
ghost use Rattle.conductors.specs.Below.{TakesBelow, GivesBelow};
ghost use Rattle.conductors.specs.Orders.{past, back, takes, brings, numbered, order_comp, order_inv};

use crate::count::Count;

// The number at place w among those other than d, counted from 0.
fn open_up(d: u8, w: u8) -> u8
    requires { w < 255 }
    ensures { result ≡ past d w }
{
    if w < d { w } else { w + 1 }
}

// The place of w among the numbers other than d, counted from 0.
fn close_up(d: u8, w: u8) -> u8
    ensures { result ≡ back d w }
{
    if d < w { w - 1 } else { w }
}

// Where order k of n conductors takes v. Here and below n stands by itself, since
// `open_up(k % n, Count { number: n - 1 }.place(k / n, v - 1))` is no plainer.
pub(crate) fn place(n: u8, k: u8, v: u8) -> u8
    requires { v < n }
    ensures is { result ≡ takes n k v }
    ensures below { result < n }
{
    if v == 0 {
        k % n
    } else {
        open_up(k % n, place(n - 1, k / n, v - 1))
    }
}

// What order k of n conductors takes to w.
pub(crate) fn source(n: u8, k: u8, w: u8) -> u8
    requires { w < n }
    ensures is { result ≡ brings n k w }
    ensures below { result < n }
{
    if w == k % n {
        0
    } else {
        source(n - 1, k / n, close_up(k % n, w)) + 1
    }
}

impl Count {
    // The number of the order that takes each v to places[v]; an array of the most that there are, since no heap is used.
    fn number_of(self, places: [u8; 4]) -> u8
        ensures { result ≡ numbered self.number (λ v. slice_index places v) }
    {
        let n = self.number;
        if n == 0 {
            return 0;
        }
        let [first, second, third, fourth] = places;
        let rest = [
            close_up(first, second),
            close_up(first, third),
            close_up(first, fourth),
            0,
        ];
        let fewer = Count { number: n - 1 };
        first % n + n * fewer.number_of(rest)
    }

    // The number of the order that takes each v to place(v).
    pub(crate) fn order_of<F: Fn(u8) -> u8>(self, place: F) -> u8
        requires { TakesBelow (F.pre place) self.number }
        ensures { (f : ℕ → ℕ) → GivesBelow (F.post place) f self.number → result ≡ numbered self.number f }
    {
        // `array::from_fn` goes on past n: `|v| if v < n { place(v as u8) } else { 0 }` is no plainer.
        let mut places = [0; 4];
        for v in 0..self.number {
            places[usize::from(v)] = place(v);
        }
        self.number_of(places)
    }

    // The order that does h, and then g.
    pub(crate) fn composed(self, g: u8, h: u8) -> u8
        ensures { result ≡ order_comp self.number g h }
    {
        self.order_of(|v| place(self.number, g, place(self.number, h, v)))
    }

    // The order that undoes g.
    pub(crate) fn inverted(self, g: u8) -> u8
        ensures { result ≡ order_inv self.number g }
    {
        self.order_of(|v| source(self.number, g, v))
    }
}
