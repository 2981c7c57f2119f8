// Questions.
ghost use Rattle.std.specs.Prelude.{◌≡◌, Some};
ghost use Rattle.table.specs.Ask.{answer_word, asked, sure};

use crate::node::NodeOf;
use crate::notes::{Meeting, is_empty, meet};
use crate::storage::load;
use kind::Kind;
use std::fmt;

// What follows of a relation between two points: that it holds, that it cannot, or neither.
#[derive(Clone, Copy, PartialEq, Eq, Debug)]
pub enum Answer {
    Holds,
    Barred,
    Open,
}

impl Answer {
    // As it is printed.
    pub fn word(self) -> &'static str
        ensures { result.now ≡ answer_word self }
    {
        match self {
            Answer::Holds => "holds",
            Answer::Barred => "barred",
            Answer::Open => "open",
        }
    }
}

impl fmt::Display for Answer {
    ghost output = { λ answer. Some (answer_word answer) };

    fn fmt<W: fmt::Write>(&self, f: &mut fmt::Formatter<W>) -> fmt::Result {
        f.write_str(self.word())
    }
}

// Whether a meeting that is not barred is certain.
fn is_sure<K: Kind>(nodes: &[NodeOf<K>], m: Meeting<K::Relation, K::Set>) -> bool
    ensures { result ≡ sure K.Kind nodes.now m.first m.second m.by }
{
    let first = load::<K>(nodes, m.first).set;
    if m.first == m.second {
        K::within(first, K::still(m.by))
    } else {
        let second = load::<K>(nodes, m.second).set;
        K::tally(first) == 1 && K::tally(second) == 1
    }
}

// Whether x = g·y.
pub fn ask<K: Kind>(nodes: &[NodeOf<K>], x: u8, y: u8, g: K::Relation) -> Answer
    ensures { result ≡ asked K.Kind nodes.now x y g }
{
    let meeting = meet::<K>(nodes, x, y, g);
    if is_empty::<K>(meeting.left) {
        Answer::Barred
    } else if is_sure::<K>(nodes, meeting) {
        Answer::Holds
    } else {
        Answer::Open
    }
}
