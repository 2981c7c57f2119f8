// The kind of the orders of n conductors, and phases, of which there are three.
ghost use Rattle.std.specs.Int.Bits.{bit_and};
ghost use Rattle.conductors.specs.Orders.{takes, order_comp, order_inv, brings};
ghost use Rattle.conductors.specs.Masks.{bit, mask_full, mask_shift, mask_fixed, mask_inside, mask_count};
ghost use Rattle.conductors.specs.OrderWords.{order_word_lem, order_named, mask_label, mask_labelled, order_read, mask_read};
ghost use Rattle.conductors.specs.OrderLaws.{takes_below, takes_unit, brings_takes, takes_brings};
ghost use Rattle.conductors.specs.OrderNumbers.{comp_takes, inv_takes};
ghost use Rattle.std.proofs.Common.{◌∙◌, ap, sym, arith, rules};
ghost use Rattle.std.specs.Prelude.{◌≡◌, true, [], ◌∷◌};
ghost use Rattle.conductors.specs.MaskLaws.{bit_mask, full_mask, bit_and_lem, inside_each, each_inside, count_tallies};
ghost use Rattle.conductors.specs.OrderNames.{order_word_long, order_word_plain, order_word_tells, order_word_told, order_word_read};
ghost use Rattle.conductors.specs.Labels.{label_long, label_plain, label_tells, label_told, label_read};
ghost use Rattle.words.proofs.Reading.{first_with_word, first_with_itself};

use crate::count::{Conductors, Count};
use crate::three::Three;
use kind::{Kind, WordFault};
use std::marker::PhantomData;
use words::Word;

// No word is longer: `none` has four letters, and there are at most four conductors.
const WIDE: usize = 4;

// The number of the order that leaves every conductor in its place.
const IN_PLACE: u8 = 0;

pub struct Orders<C> {
    conductors: PhantomData<C>,
}

pub type Phases = Orders<Three>;

impl<C: Conductors> Orders<C> {
    fn count() -> Count
        ensures { result.number ≡ C.Conductors.many }
    {
        Count::new(C::number())
    }
}

impl<C: Conductors> Kind for Orders<C> {
    // Plain numbers: each stands for an order, and for a set, so that a type round them would keep no fact.
    type Relation = u8;

    type Set = u8;

    const W: usize = WIDE;

    ghost W = { 4 };

    ghost span = { C.Conductors.many };

    ghost act = { takes C.Conductors.many };

    ghost has = { bit };

    ghost unit = { 0 };

    ghost comp = { order_comp C.Conductors.many };

    ghost inv = { order_inv C.Conductors.many };

    ghost full = { mask_full C.Conductors.many };

    ghost meet = { bit_and };

    ghost shift = { mask_shift C.Conductors.many };

    ghost fixed = { mask_fixed C.Conductors.many };

    ghost inside = { mask_inside C.Conductors.many };

    ghost count = { mask_count C.Conductors.many };

    ghost word = { order_word_lem C.Conductors.many };

    ghost label = { mask_label C.Conductors.many };

    ghost named = { order_named C.Conductors.many };

    ghost labelled = { mask_labelled C.Conductors.many };

    ghost positive = { Prim.search rules };

    ghost closed = { takes_below C.Conductors.many };

    ghost unit_acts = { takes_unit C.Conductors.many };

    ghost comp_acts = { comp_takes C.Conductors.many };

    ghost inv_left = { λ k v h.
        let n = C.Conductors.many in
        inv_takes n k _ (takes_below n k v h) ∙ brings_takes n k v h };

    ghost inv_right = { λ k v h.
        let n = C.Conductors.many in
        ap (takes n k) (inv_takes n k v h) ∙ takes_brings n k v h };

    ghost full_has = { λ v h.
        let n = C.Conductors.many in
        ap (λ s. bit s v) (full_mask n) ∙ bit_mask (λ u. true) n v h };

    ghost meet_has = { λ s t v h. bit_and_lem s t v };

    ghost shift_has = { λ k s v h.
        let n = C.Conductors.many in
        bit_mask (λ u. bit s (brings n k u)) n v h ∙ ap (bit s) (sym (inv_takes n k v h)) };

    ghost fixed_has = { λ k v h. bit_mask _ C.Conductors.many v h };

    ghost inside_all = { inside_each C.Conductors.many };

    ghost all_inside = { each_inside C.Conductors.many };

    ghost count_tells = { λ s. count_tallies C.Conductors.many s C.Conductors.few };

    ghost narrow = { Prim.search rules };

    ghost word_length = { λ k.
        let long = order_word_long C.Conductors.many k in
        let some = C.Conductors.some in
        let few = C.Conductors.few in
        (omega arith, omega arith) };

    ghost label_length = { λ s. label_long C.Conductors.many s C.Conductors.few };

    ghost word_plain = { λ k. order_word_plain C.Conductors.many k C.Conductors.few };

    ghost label_plain = { λ s. label_plain C.Conductors.many s C.Conductors.few };

    ghost word_tells = { order_word_tells C.Conductors.many };

    ghost word_told = { order_word_told C.Conductors.many };

    ghost label_tells = { λ s t. label_tells C.Conductors.many s t C.Conductors.few };

    ghost label_told = { λ s t w low has. label_told C.Conductors.many s t };

    ghost named_word = { λ field.
        let n = C.Conductors.many in
        first_with_word (order_word_lem n) (order_read n field ∷ []) field };

    ghost word_named = { λ k.
        let n = C.Conductors.many in
        first_with_itself (order_word_lem n) _ (order_word_lem n k) (order_word_read n k) };

    ghost labelled_label = { λ field.
        let n = C.Conductors.many in
        first_with_word (mask_label n) (mask_read n field ∷ []) field };

    ghost label_labelled = { λ s.
        let n = C.Conductors.many in
        first_with_itself (mask_label n) _ (mask_label n s) (label_read n s C.Conductors.few) };

    fn identity() -> u8 {
        IN_PLACE
    }

    fn after(g: u8, h: u8) -> u8 {
        C::after(g, h)
    }

    fn inverse(g: u8) -> u8 {
        C::undoing(g)
    }

    fn all() -> u8 {
        Self::count().everything()
    }

    fn common(s: u8, t: u8) -> u8 {
        s & t
    }

    fn moved(g: u8, s: u8) -> u8 {
        Self::count().shifted(g, s)
    }

    fn still(g: u8) -> u8 {
        Self::count().unmoved(g)
    }

    fn within(s: u8, t: u8) -> bool {
        Self::count().includes(s, t)
    }

    fn tally(s: u8) -> u16 {
        Self::count().size(s)
    }

    fn read_relation(field: &[u8]) -> Result<u8, WordFault> {
        Self::count().read_order(field)
    }

    fn read_set(field: &[u8]) -> Result<u8, WordFault> {
        Self::count().read_mask(field)
    }

    fn relation_word(g: u8) -> Word {
        Self::count().order_word(g)
    }

    fn set_word(s: u8) -> Word {
        Self::count().mask_word(s)
    }
}
