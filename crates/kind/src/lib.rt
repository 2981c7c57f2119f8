// A kind: how two values may be related, which sets of values can be told, and how both are written.
#![tactic(auto)]

ghost use Rattle.std.specs.Prelude.{◌≡◌, ℕ, ◌<◌, ◌≤◌, Bool, true, ◌&&◌, List, length, is_some, Some, Option, ◌==◌};
ghost use Rattle.std.specs.Option.{ok_or};
ghost use Rattle.words.specs.Plain.{all_plain};
ghost use Rattle.kind.specs.Tally.{members, Tallied};
ghost use Rattle.kind.specs.declared.fault.WordFault.TheVariants.{NotAWord};

mod fault;

pub use fault::WordFault;
use words::Word;

// A kind is a type that stands for it. What the kind means is said by ghost members, each law has a name of its own,
// and every function gives the value of a ghost member. Every law about values speaks of those below the span.
pub trait Kind {
    type Relation: Copy;

    type Set: Copy;

    // No word of the kind is longer.
    const W: usize;

    ghost W: { ℕ };

    // The values are the numbers below it.
    ghost span: { ℕ };

    // The value that a relation takes a value to.
    ghost act: { Self.Relation → ℕ → ℕ };

    // Whether a value belongs to a set.
    ghost has: { Self.Set → ℕ → Bool };

    // What the functions of the kind answer, in their order below.
    ghost unit: { Self.Relation };

    ghost comp: { Self.Relation → Self.Relation → Self.Relation };

    ghost inv: { Self.Relation → Self.Relation };

    ghost full: { Self.Set };

    ghost meet: { Self.Set → Self.Set → Self.Set };

    ghost shift: { Self.Relation → Self.Set → Self.Set };

    ghost fixed: { Self.Relation → Self.Set };

    ghost inside: { Self.Set → Self.Set → Bool };

    ghost count: { Self.Set → ℕ };

    // The word of a relation, and the word of a set (its label).
    ghost word: { Self.Relation → List ℕ };

    ghost label: { Self.Set → List ℕ };

    // The relation that a field names, and the set that it labels, if any.
    ghost named: { List ℕ → Option Self.Relation };

    ghost labelled: { List ℕ → Option Self.Set };

    fn width() -> usize
        ensures { result ≡ W }
    {
        Self::W
    }

    // Takes every value to itself.
    fn identity() -> Self::Relation
        ensures { result ≡ unit };

    // g after h: h acts first.
    fn after(g: Self::Relation, h: Self::Relation) -> Self::Relation
        ensures { result ≡ comp g h };

    fn inverse(g: Self::Relation) -> Self::Relation
        ensures { result ≡ inv g };

    // Every value.
    fn all() -> Self::Set
        ensures { result ≡ full };

    // The values of both sets.
    fn common(s: Self::Set, t: Self::Set) -> Self::Set
        ensures { result ≡ meet s t };

    // The values to which g takes those of s.
    fn moved(g: Self::Relation, s: Self::Set) -> Self::Set
        ensures { result ≡ shift g s };

    // The values that g takes to themselves.
    fn still(g: Self::Relation) -> Self::Set
        ensures { result ≡ fixed g };

    // Whether each value of s is one of t.
    fn within(s: Self::Set, t: Self::Set) -> bool
        ensures { result ≡ inside s t };

    // How many values s has, as far as the tally tells.
    fn tally(s: Self::Set) -> u16
        ensures { result ≡ count s };

    fn read_relation(field: &[u8]) -> Result<Self::Relation, WordFault>
        ensures { result ≡ ok_or (named field.now) NotAWord };

    fn read_set(field: &[u8]) -> Result<Self::Set, WordFault>
        ensures { result ≡ ok_or (labelled field.now) NotAWord };

    fn relation_word(g: Self::Relation) -> Word
        ensures { result ≡ word g };

    fn set_word(s: Self::Set) -> Word
        ensures { result ≡ label s };

    ghost positive: { 0 < span };

    ghost closed: { (g : Self.Relation) (v : ℕ) → v < span → act g v < span };

    ghost unit_acts: { (v : ℕ) → v < span → act unit v ≡ v };

    ghost comp_acts: { (g h : Self.Relation) (v : ℕ) → v < span → act (comp g h) v ≡ act g (act h v) };

    ghost inv_left: { (g : Self.Relation) (v : ℕ) → v < span → act (inv g) (act g v) ≡ v };

    ghost inv_right: { (g : Self.Relation) (v : ℕ) → v < span → act g (act (inv g) v) ≡ v };

    ghost full_has: { (v : ℕ) → v < span → has full v ≡ true };

    ghost meet_has: { (s t : Self.Set) (v : ℕ) → v < span → has (meet s t) v ≡ (has s v && has t v) };

    ghost shift_has: { (g : Self.Relation) (s : Self.Set) (v : ℕ) → v < span → has (shift g s) v ≡ has s (act (inv g) v) };

    ghost fixed_has: { (g : Self.Relation) (v : ℕ) → v < span → has (fixed g) v ≡ (act g v == v) };

    ghost inside_all: { (s t : Self.Set) → inside s t ≡ true → (v : ℕ) → v < span → has s v ≡ true → has t v ≡ true };

    ghost all_inside: { (s t : Self.Set) → ((v : ℕ) → v < span → has s v ≡ true → has t v ≡ true) → inside s t ≡ true };

    ghost count_tells: { (s : Self.Set) → Tallied (members (has s) span) (count s) };

    ghost narrow: { W ≤ 32 };

    ghost word_length: { (g : Self.Relation) → (0 < length (word g)) × (length (word g) ≤ W) };

    ghost label_length: { (s : Self.Set) → (0 < length (label s)) × (length (label s) ≤ W) };

    ghost word_plain: { (g : Self.Relation) → all_plain (word g) ≡ true };

    ghost label_plain: { (s : Self.Set) → all_plain (label s) ≡ true };

    // Relations have one word exactly when they move every value alike.
    ghost word_tells: { (g h : Self.Relation) → word g ≡ word h → (v : ℕ) → v < span → act g v ≡ act h v };

    ghost word_told: { (g h : Self.Relation) → ((v : ℕ) → v < span → act g v ≡ act h v) → word g ≡ word h };

    // Sets with one word have the same members; sets with the same members, one of them w, have one word.
    ghost label_tells: { (s t : Self.Set) → label s ≡ label t → (v : ℕ) → v < span → has s v ≡ has t v };

    ghost label_told: { (s t : Self.Set) (w : ℕ) → w < span → has s w ≡ true → ((v : ℕ) → v < span → has s v ≡ has t v) → label s ≡ label t };

    // What is read has the field for its word, and every word is read.
    ghost named_word: { (field : List ℕ) (g : Self.Relation) → named field ≡ Some g → word g ≡ field };

    ghost word_named: { (g : Self.Relation) → is_some (named (word g)) ≡ true };

    ghost labelled_label: { (field : List ℕ) (s : Self.Set) → labelled field ≡ Some s → label s ≡ field };

    ghost label_labelled: { (s : Self.Set) → is_some (labelled (label s)) ≡ true };
}
