// Temperatures in tenths of a degree, and the offsets between them.
#![tactic(auto)]

ghost use Rattle.std.specs.Prelude.{◌≡◌};
ghost use Rattle.picks.specs.declared.Pick.TheVariants.{Any};
ghost use Rattle.picks.specs.Picks.{pick_has, pick_meet, pick_shift, pick_inside, pick_count, pick_label, pick_labelled};
ghost use Rattle.temps.specs.Temps.{temp_act, temp_inv, temp_fixed, temp_spelt, temp_word, temp_named};
ghost use Rattle.std.proofs.Common.{lit≤, rules};
ghost use Rattle.picks.proofs.PickLaws.{pick_all_inside, pick_count_tells};
ghost use Rattle.temps.specs.TempLaws.{temp_word_length, temp_word_plain, temp_word_tells, temp_word_told, temp_named_word, temp_word_named};
ghost use Rattle.picks.proofs.PickWords.{pick_label_length, pick_label_plain, pick_label_tells, pick_label_told, pick_labelled_label, pick_label_labelled};
ghost use Rattle.temps.specs.TempWords.{temp_spelling};

use kind::{Kind, WordFault};
use picks::Pick;
use words::{Word, read_number};

// The greatest value.
const LAST: u32 = u32::MAX;

// The values from here on are written below zero.
const HALF: u32 = 1 << 31;

// The number that a field writes, from -2147483648 to 2147483647.
fn read_offset(field: &[u8]) -> Option<u32>
    ensures { result ≡ temp_named field.now }
{
    match field {
        [b'-', digits @ ..] => read_number(digits)
            .filter(|n| (1..=HALF).contains(n))
            .map(u32::wrapping_neg),
        _ => read_number(field).filter(|n| *n < HALF),
    }
}

fn offset_word(d: u32) -> Word
    ensures { result ≡ temp_word d }
{
    Word::signed(d.cast_signed())
}

pub struct Temps;

impl Kind for Temps {
    type Relation = u32;

    type Set = Pick;

    const W: usize = 11;

    ghost W = { 11 };

    ghost span = { 4294967296 };

    ghost act = { temp_act };

    ghost has = { pick_has 4294967296 };

    ghost unit = { 0 };

    ghost comp = { temp_act };

    ghost inv = { temp_inv };

    ghost full = { Any };

    ghost meet = { pick_meet 4294967296 };

    ghost shift = { λ d. pick_shift 4294967296 (temp_act d) };

    ghost fixed = { temp_fixed };

    ghost inside = { pick_inside 4294967296 };

    ghost count = { pick_count 4294967296 };

    ghost word = { temp_word };

    ghost label = { pick_label 4294967296 temp_spelt };

    ghost named = { temp_named };

    ghost labelled = { pick_labelled temp_named };

    ghost positive = { Prim.search rules };

    ghost closed = { Prim.search rules };

    ghost unit_acts = { Prim.search rules };

    ghost comp_acts = { Prim.search rules };

    ghost inv_left = { Prim.search rules };

    ghost inv_right = { Prim.search rules };

    ghost full_has = { Prim.search rules };

    ghost meet_has = { Prim.search rules };

    ghost shift_has = { Prim.search rules };

    ghost fixed_has = { Prim.search rules };

    ghost inside_all = { Prim.search rules };

    ghost all_inside = { pick_all_inside 4294967296 (lit≤ tt) };

    ghost count_tells = { pick_count_tells 4294967296 (lit≤ tt) };

    ghost narrow = { Prim.search rules };

    ghost word_length = { temp_word_length };

    ghost label_length = { pick_label_length temp_spelling };

    ghost word_plain = { temp_word_plain };

    ghost label_plain = { pick_label_plain temp_spelling };

    ghost word_tells = { λ g h e v low. temp_word_tells g h e v };

    ghost word_told = { temp_word_told };

    ghost label_tells = { λ s t e v low. pick_label_tells temp_spelling s t e v };

    ghost label_told = { λ s t w low has e. pick_label_told temp_spelling s t w has e };

    ghost named_word = { temp_named_word };

    ghost word_named = { temp_word_named };

    ghost labelled_label = { pick_labelled_label temp_spelling };

    ghost label_labelled = { pick_label_labelled temp_spelling };

    fn identity() -> u32 {
        0
    }

    fn after(g: u32, h: u32) -> u32 {
        g.wrapping_add(h)
    }

    fn inverse(g: u32) -> u32 {
        g.wrapping_neg()
    }

    // As for drums, each a call of `Pick`.
    fn all() -> Pick {
        Pick::Any
    }

    fn common(s: Pick, t: Pick) -> Pick {
        s.common(t, LAST)
    }

    fn moved(g: u32, s: Pick) -> Pick {
        s.map(|v| g.wrapping_add(v))
    }

    fn still(g: u32) -> Pick {
        if g == 0 { Pick::Any } else { Pick::Nothing }
    }

    fn within(s: Pick, t: Pick) -> bool {
        s.within(t, LAST)
    }

    fn tally(s: Pick) -> u16 {
        s.tally(LAST)
    }

    fn read_relation(field: &[u8]) -> Result<u32, WordFault> {
        read_offset(field).ok_or(WordFault::NotAWord)
    }

    fn read_set(field: &[u8]) -> Result<Pick, WordFault> {
        Pick::read(field, read_offset(field)).ok_or(WordFault::NotAWord)
    }

    fn relation_word(g: u32) -> Word {
        offset_word(g)
    }

    fn set_word(s: Pick) -> Word {
        s.word(offset_word)
    }
}
