// Leads: two ends, plus and minus, joined alike or crossed.
#![tactic(auto)]

ghost use Rattle.std.specs.Prelude.{true};
ghost use Rattle.leads.specs.declared.Turn.TheVariants.{Same};
ghost use Rattle.leads.specs.Leads.{turn_act, turn_comp, turn_word, turn_named, ends, ends_has, ends_meet, ends_shift, ends_fixed, ends_inside, ends_count, ends_label, ends_labelled, turns, all_ends};
ghost use Rattle.leads.specs.LeadLaws.{ends_all_inside, turn_word_told, ends_label_told, ends_count_tells};
ghost use Rattle.words.proofs.Reading.{first_with_word};
ghost use Rattle.std.proofs.Common.{rules};

use kind::{Kind, WordFault};
use words::Word;

// How one pair of leads is joined to another.
#[derive(Clone, Copy, PartialEq, Eq, Debug)]
pub enum Turn {
    Same,
    Crossed,
}

// Which of the two values are in a set.
#[derive(Clone, Copy, PartialEq, Eq, Debug)]
pub struct Ends {
    pub plus: bool,
    pub minus: bool,
}

impl Ends {
    pub const NONE: Ends = Ends {
        plus: false,
        minus: false,
    };

    pub const PLUS: Ends = Ends {
        plus: true,
        minus: false,
    };

    pub const MINUS: Ends = Ends {
        plus: false,
        minus: true,
    };

    pub const ANY: Ends = Ends {
        plus: true,
        minus: true,
    };
}

pub struct Leads;

impl Kind for Leads {
    type Relation = Turn;

    type Set = Ends;

    const W: usize = 7;

    ghost W = { 7 };

    ghost span = { 2 };

    ghost act = { turn_act };

    ghost has = { ends_has };

    ghost unit = { Same };

    ghost comp = { turn_comp };

    ghost inv = { λ g. g };

    ghost full = { ends true true };

    ghost meet = { ends_meet };

    ghost shift = { ends_shift };

    ghost fixed = { ends_fixed };

    ghost inside = { ends_inside };

    ghost count = { ends_count };

    ghost word = { turn_word };

    ghost label = { ends_label };

    ghost named = { turn_named };

    ghost labelled = { ends_labelled };

    ghost positive = { Prim.search rules };

    ghost closed = { Prim.search rules };

    ghost unit_acts = { Prim.search rules };

    ghost comp_acts = { Prim.search rules };

    ghost inv_left = { Prim.search rules };

    ghost inv_right = { Prim.search rules };

    ghost full_has = { Prim.search rules };

    ghost meet_has = { Prim.search rules };

    ghost shift_has = { Prim.search rules };

    ghost fixed_has = { Prim.search rules };

    ghost inside_all = { Prim.search rules };

    ghost all_inside = { ends_all_inside };

    ghost count_tells = { ends_count_tells };

    ghost narrow = { Prim.search rules };

    ghost word_length = { Prim.search rules };

    ghost label_length = { Prim.search rules };

    ghost word_plain = { Prim.search rules };

    ghost label_plain = { Prim.search rules };

    ghost word_tells = { Prim.search rules };

    ghost word_told = { turn_word_told };

    ghost label_tells = { Prim.search rules };

    ghost label_told = { λ s t w low has e. ends_label_told s t e };

    ghost named_word = { first_with_word turn_word turns };

    ghost word_named = { Prim.search rules };

    ghost labelled_label = { first_with_word ends_label all_ends };

    ghost label_labelled = { Prim.search rules };

    fn identity() -> Turn {
        Turn::Same
    }

    fn after(g: Turn, h: Turn) -> Turn {
        match (g, h) {
            (Turn::Same, _) => h,
            (Turn::Crossed, Turn::Same) => Turn::Crossed,
            (Turn::Crossed, Turn::Crossed) => Turn::Same,
        }
    }

    fn inverse(g: Turn) -> Turn {
        g
    }

    fn all() -> Ends {
        Ends::ANY
    }

    fn common(s: Ends, t: Ends) -> Ends {
        Ends {
            plus: s.plus & t.plus,
            minus: s.minus & t.minus,
        }
    }

    fn moved(g: Turn, s: Ends) -> Ends {
        match g {
            Turn::Same => s,
            Turn::Crossed => Ends {
                plus: s.minus,
                minus: s.plus,
            },
        }
    }

    fn still(g: Turn) -> Ends {
        match g {
            Turn::Same => Ends::ANY,
            Turn::Crossed => Ends::NONE,
        }
    }

    fn within(s: Ends, t: Ends) -> bool {
        (!s.plus || t.plus) && (!s.minus || t.minus)
    }

    fn tally(s: Ends) -> u16 {
        match (s.plus, s.minus) {
            (true, true) => 2,
            (true, false) | (false, true) => 1,
            (false, false) => 0,
        }
    }

    fn read_relation(field: &[u8]) -> Result<Turn, WordFault> {
        match field {
            b"same" => Ok(Turn::Same),
            b"crossed" => Ok(Turn::Crossed),
            _ => Err(WordFault::NotAWord),
        }
    }

    fn read_set(field: &[u8]) -> Result<Ends, WordFault> {
        match field {
            b"none" => Ok(Ends::NONE),
            b"plus" => Ok(Ends::PLUS),
            b"minus" => Ok(Ends::MINUS),
            b"any" => Ok(Ends::ANY),
            _ => Err(WordFault::NotAWord),
        }
    }

    fn relation_word(g: Turn) -> Word {
        match g {
            Turn::Same => Word::of(b"same"),
            Turn::Crossed => Word::of(b"crossed"),
        }
    }

    fn set_word(s: Ends) -> Word {
        match (s.plus, s.minus) {
            (false, false) => Word::of(b"none"),
            (true, false) => Word::of(b"plus"),
            (false, true) => Word::of(b"minus"),
            (true, true) => Word::of(b"any"),
        }
    }
}
