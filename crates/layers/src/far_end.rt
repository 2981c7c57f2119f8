// The far-end layer: the relations of a kind, each told from the other end.
ghost use Rattle.layers.specs.FarEnd.{far_act, far_comp, far_shift};
ghost use Rattle.layers.specs.FarEndLaws.{far_unit, far_order, far_tells, far_told};
ghost use Rattle.std.proofs.Common.{rules};

use kind::{Kind, WordFault};
use std::marker::PhantomData;
use words::Word;

// The kind K, with g moving a value as the inverse of g does in K.
pub struct FarEnd<K> {
    below: PhantomData<K>,
}

impl<K: Kind> Kind for FarEnd<K> {
    type Relation = K::Relation;

    type Set = K::Set;

    const W: usize = K::W;

    ghost W = { K.Kind.W };

    ghost span = { K.Kind.span };

    ghost act = { far_act K.Kind };

    ghost has = { K.Kind.has };

    ghost unit = { K.Kind.unit };

    ghost comp = { far_comp K.Kind };

    ghost inv = { K.Kind.inv };

    ghost full = { K.Kind.full };

    ghost meet = { K.Kind.meet };

    ghost shift = { far_shift K.Kind };

    ghost fixed = { K.Kind.fixed };

    ghost inside = { K.Kind.inside };

    ghost count = { K.Kind.count };

    ghost word = { K.Kind.word };

    ghost label = { K.Kind.label };

    ghost named = { K.Kind.named };

    ghost labelled = { K.Kind.labelled };

    ghost positive = { Prim.search rules };

    ghost closed = { Prim.search rules };

    ghost unit_acts = { far_unit K.span K.act K.inv K.closed K.inv_left K.unit K.unit_acts };

    ghost comp_acts = { far_order K.span K.act K.inv K.closed K.inv_left K.inv_right K.comp K.comp_acts };

    ghost inv_left = { Prim.search rules };

    ghost inv_right = { Prim.search rules };

    ghost full_has = { Prim.search rules };

    ghost meet_has = { Prim.search rules };

    ghost shift_has = { Prim.search rules };

    ghost fixed_has = { Prim.search rules };

    ghost inside_all = { Prim.search rules };

    ghost all_inside = { Prim.search rules };

    ghost count_tells = { Prim.search rules };

    ghost narrow = { Prim.search rules };

    ghost word_length = { Prim.search rules };

    ghost label_length = { Prim.search rules };

    ghost word_plain = { Prim.search rules };

    ghost label_plain = { Prim.search rules };

    ghost word_tells = { far_tells K.span K.act K.inv K.closed K.inv_left K.inv_right K.word K.word_tells };

    ghost word_told = { far_told K.span K.act K.inv K.closed K.inv_left K.inv_right K.word K.word_told };

    ghost label_tells = { Prim.search rules };

    ghost label_told = { Prim.search rules };

    ghost named_word = { Prim.search rules };

    ghost word_named = { Prim.search rules };

    ghost labelled_label = { Prim.search rules };

    ghost label_labelled = { Prim.search rules };

    fn identity() -> K::Relation {
        K::identity()
    }

    fn after(g: K::Relation, h: K::Relation) -> K::Relation {
        K::after(h, g)
    }

    fn inverse(g: K::Relation) -> K::Relation {
        K::inverse(g)
    }

    fn all() -> K::Set {
        K::all()
    }

    fn common(s: K::Set, t: K::Set) -> K::Set {
        K::common(s, t)
    }

    fn moved(g: K::Relation, s: K::Set) -> K::Set {
        K::moved(K::inverse(g), s)
    }

    fn still(g: K::Relation) -> K::Set {
        K::still(g)
    }

    fn within(s: K::Set, t: K::Set) -> bool {
        K::within(s, t)
    }

    fn tally(s: K::Set) -> u16 {
        K::tally(s)
    }

    fn read_relation(field: &[u8]) -> Result<K::Relation, WordFault> {
        K::read_relation(field)
    }

    fn read_set(field: &[u8]) -> Result<K::Set, WordFault> {
        K::read_set(field)
    }

    fn relation_word(g: K::Relation) -> Word {
        K::relation_word(g)
    }

    fn set_word(s: K::Set) -> Word {
        K::set_word(s)
    }
}
