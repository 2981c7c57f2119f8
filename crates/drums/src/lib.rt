// Drums: residues modulo 251, and the relations v to a × v + b.
#![tactic(auto)]

ghost use Rattle.std.specs.Prelude.{decimal};
ghost use Rattle.picks.specs.Picks.{pick_has, pick_meet, pick_inside, pick_count, pick_label, pick_labelled};
ghost use Rattle.picks.specs.declared.Pick.TheVariants.{Any};
ghost use Rattle.drums.specs.Drums.{drum_act, drum_comp, drum_inv, drum_shift, drum_fixed};
ghost use Rattle.drums.specs.DrumWords.{drum_word, drum_named, value_named};
ghost use Rattle.drums.specs.DrumLaws.{drum_comp_acts, drum_inv_left, drum_inv_right, drum_closed, drum_fixed_has};
ghost use Rattle.std.proofs.Common.{lit≤, rules};
ghost use Rattle.picks.proofs.PickLaws.{pick_shift_has, pick_all_inside, pick_count_tells};
ghost use Rattle.drums.specs.DrumWordsLemmas.{drum_length, values, drum_plain, drum_word_tells, drum_word_told, drum_named_word, drum_word_named};
ghost use Rattle.picks.proofs.PickWords.{pick_label_length, pick_label_plain, pick_label_tells, pick_label_told, pick_labelled_label, pick_label_labelled};

use drum::{LAST, SPAN};
use kind::{Kind, WordFault};
use picks::Pick;
use text::{read_drum, read_value};
use words::Word;

mod drum;
mod relation;
mod text;

pub use drum::Drum;

pub struct Drums;

// A relation is a number, which stands for the drum relation made from it.
impl Kind for Drums {
    type Relation = u32;

    type Set = Pick;

    const W: usize = 7;

    ghost W = { 7 };

    ghost span = { 251 };

    ghost act = { drum_act };

    ghost has = { pick_has 251 };

    ghost unit = { 0 };

    ghost comp = { drum_comp };

    ghost inv = { drum_inv };

    ghost full = { Any };

    ghost meet = { pick_meet 251 };

    ghost shift = { drum_shift };

    ghost fixed = { drum_fixed };

    ghost inside = { pick_inside 251 };

    ghost count = { pick_count 251 };

    ghost word = { drum_word };

    ghost label = { pick_label 251 decimal };

    ghost named = { drum_named };

    ghost labelled = { pick_labelled value_named };

    ghost positive = { Prim.search rules };

    ghost closed = { Prim.search rules };

    ghost unit_acts = { Prim.search rules };

    ghost comp_acts = { λ g h v lt. drum_comp_acts g h v };

    ghost inv_left = { drum_inv_left };

    ghost inv_right = { drum_inv_right };

    ghost full_has = { Prim.search rules };

    ghost meet_has = { Prim.search rules };

    ghost shift_has = { λ g. pick_shift_has 251 (lit≤ tt) (drum_act g) (drum_act (drum_inv g)) (λ v lt. drum_closed g v) (drum_inv_left g) (drum_inv_right g) };

    ghost fixed_has = { drum_fixed_has };

    ghost inside_all = { Prim.search rules };

    ghost all_inside = { pick_all_inside 251 (lit≤ tt) };

    ghost count_tells = { pick_count_tells 251 (lit≤ tt) };

    ghost narrow = { Prim.search rules };

    ghost word_length = { drum_length };

    ghost label_length = { pick_label_length values };

    ghost word_plain = { drum_plain };

    ghost label_plain = { pick_label_plain values };

    ghost word_tells = { λ g h e v lt. drum_word_tells g h e v };

    ghost word_told = { drum_word_told };

    ghost label_tells = { λ s t e v lt. pick_label_tells values s t e v };

    ghost label_told = { λ s t w lt. pick_label_told values s t w };

    ghost named_word = { drum_named_word };

    ghost word_named = { drum_word_named };

    ghost labelled_label = { pick_labelled_label values };

    ghost label_labelled = { pick_label_labelled values };

    fn identity() -> u32 {
        0
    }

    fn after(g: u32, h: u32) -> u32 {
        Drum::of(g).after(Drum::of(h)).number()
    }

    fn inverse(g: u32) -> u32 {
        Drum::of(g).inverse().number()
    }

    // The trait has relations and sets together, so what temps share with drums is a call of `Pick` in each.
    fn all() -> Pick {
        Pick::Any
    }

    fn common(s: Pick, t: Pick) -> Pick {
        s.common(t, LAST)
    }

    fn moved(g: u32, s: Pick) -> Pick {
        s.map(|v| Drum::of(g).value_at(v))
    }

    fn still(g: u32) -> Pick {
        Drum::of(g).still()
    }

    fn within(s: Pick, t: Pick) -> bool {
        s.within(t, LAST)
    }

    fn tally(s: Pick) -> u16 {
        s.tally(LAST)
    }

    fn read_relation(field: &[u8]) -> Result<u32, WordFault> {
        let drum = read_drum(field).ok_or(WordFault::NotAWord)?;
        Ok(drum.number())
    }

    fn read_set(field: &[u8]) -> Result<Pick, WordFault> {
        Pick::read(field, read_value(field)).ok_or(WordFault::NotAWord)
    }

    fn relation_word(g: u32) -> Word {
        Drum::of(g).word()
    }

    fn set_word(s: Pick) -> Word {
        s.word(|v| Word::decimal(v % SPAN))
    }
}
