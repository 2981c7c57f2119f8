// Sets of none, one or all of the numbers below a bound.
#![tactic(auto)]

ghost use Rattle.std.specs.Prelude.{◌≡◌, ℕ, ◌+◌, ◌%◌, List};
ghost use Rattle.picks.specs.Closures.{ForOne, Maps, Spells, Computes};
ghost use Rattle.picks.specs.Picks.{pick_meet, pick_shift, pick_inside, pick_count, pick_label, pick_read};

use words::Word;

// `One(a)` stands for the residue of a, so each number stands for one value.
#[derive(Clone, Copy, Debug, PartialEq, Eq)]
pub enum Pick {
    Nothing,
    One(u32),
    Any,
}

// The value below last + 1 that a stands for.
fn residue(a: u32, last: u32) -> u32
    ensures { result ≡ a % (last + 1) }
{
    if a <= last { a } else { a % (last + 1) }
}

// The values are those up to `last`: as a const parameter it would stand in every definition that speaks of a set.
impl Pick {
    // The values of both sets.
    pub fn common(self, other: Pick, last: u32) -> Pick
        ensures { result ≡ pick_meet (last + 1) self other }
    {
        match (self, other) {
            (Pick::Any, _) => other,
            (Pick::One(_), Pick::Any) => self,
            (Pick::One(a), Pick::One(b)) if residue(a, last) == residue(b, last) => self,
            _ => Pick::Nothing,
        }
    }

    // Whether each value of this set is one of the other, where there are two values at least.
    pub fn within(self, other: Pick, last: u32) -> bool
        ensures { result ≡ pick_inside (last + 1) self other }
    {
        match (self, other) {
            (Pick::Nothing, _) | (_, Pick::Any) => true,
            (Pick::One(a), Pick::One(b)) => residue(a, last) == residue(b, last),
            _ => false,
        }
    }

    // As `Option::map`: one value becomes what f makes of it.
    pub fn map<F: FnOnce(u32) -> u32>(self, f: F) -> Pick
        requires { ForOne self (F.pre f) }
        ensures maps { Maps (F.post f) self result }
        ensures computes { (m : ℕ) (g : ℕ → ℕ) → Computes (F.post f) (λ v. g (v % m)) → result ≡ pick_shift m g self }
    {
        match self {
            Pick::One(v) => Pick::One(f(v)),
            _ => self,
        }
    }

    // The word of the set, where spell writes a value.
    pub fn word<F: FnOnce(u32) -> Word>(self, spell: F) -> Word
        requires { ForOne self (F.pre spell) }
        ensures spells { Spells (F.post spell) self result }
        ensures computes { (m : ℕ) (text : ℕ → List ℕ) → Computes (F.post spell) (λ v. text (v % m)) → result ≡ pick_label m text self }
    {
        match self {
            Pick::Nothing => Word::of(b"none"),
            Pick::One(v) => spell(v),
            Pick::Any => Word::of(b"any"),
        }
    }

    // How many values the set has, and 256 for more than 255.
    pub fn tally(self, last: u32) -> u16
        ensures { result ≡ pick_count (last + 1) self }
    {
        match self {
            Pick::Nothing => 0,
            Pick::One(_) => 1,
            // At most 255: `u8::try_from(last).map_or(256, |low| u16::from(low) + 1)` is no plainer
            Pick::Any => last.min(255) as u16 + 1,
        }
    }

    // The set that a field labels, given the value that the field names, if any.
    pub fn read(field: &[u8], value: Option<u32>) -> Option<Pick>
        ensures { result ≡ pick_read field.now value }
    {
        match field {
            b"none" => Some(Pick::Nothing),
            b"any" => Some(Pick::Any),
            _ => value.map(Pick::One),
        }
    }
}
