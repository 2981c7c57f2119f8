// What a note finds at the references of its points, and what it makes of them.
ghost use Rattle.std.specs.Prelude.{◌≡◌};
ghost use Rattle.table.specs.Note.{empty, hung, joined, Meets};

use crate::combination::combine;
use crate::node::{Node, NodeOf};
use crate::storage::{load, settle, store};
use crate::walks::walk;
use kind::Kind;

// Two references, the relation that takes the second's value to the first's, and the set left to the first.
#[derive(Clone, Copy, PartialEq, Eq, Debug)]
pub struct Meeting<R, S> {
    pub first: u8,
    pub second: u8,
    pub by: R,
    pub left: S,
}

pub fn is_empty<K: Kind>(s: K::Set) -> bool
    ensures { result ≡ empty K.Kind s }
{
    K::tally(s) == 0
}

// Where x = g·y is noted. Three arguments, here and in `ask`, as in the calls on a sheet.
pub fn meet<K: Kind>(
    nodes: &[NodeOf<K>],
    x: u8,
    y: u8,
    g: K::Relation,
) -> Meeting<K::Relation, K::Set>
    ensures { Meets K.Kind nodes.now x y g result }
{
    let first = walk::<K>(nodes, x);
    let second = walk::<K>(nodes, y);
    let by = combine::<K>(first.relation, g, second.relation);
    let allowed = if first.reference == second.reference {
        K::still(by)
    } else {
        K::moved(by, load::<K>(nodes, second.reference).set)
    };
    Meeting {
        first: first.reference,
        second: second.reference,
        by,
        left: K::common(load::<K>(nodes, first.reference).set, allowed),
    }
}

// Links the reference `lower` to the reference `upper`, which gets a rank and a set.
fn hang<K: Kind>(
    nodes: &mut [NodeOf<K>],
    lower: u8,
    upper: u8,
    g: K::Relation,
    rank: u8,
    set: K::Set,
)
    ensures { nodes.new ≡ hung K.Kind nodes.old lower upper g rank set }
{
    let below = load::<K>(nodes, lower);
    let above = load::<K>(nodes, upper);
    store::<K>(
        nodes,
        lower,
        Node {
            link: upper,
            relation: g,
            ..below
        },
    );
    store::<K>(nodes, upper, Node { rank, set, ..above });
}

// Stores what a meeting has come to.
pub fn join<K: Kind>(nodes: &mut [NodeOf<K>], m: Meeting<K::Relation, K::Set>)
    ensures { nodes.new ≡ joined K.Kind nodes.old m }
{
    if m.first == m.second {
        settle::<K>(nodes, m.first, m.left);
        return;
    }
    let back = K::inverse(m.by);
    let first = load::<K>(nodes, m.first).rank;
    let second = load::<K>(nodes, m.second).rank;
    if first >= second {
        let rank = first.max(second.saturating_add(1));
        hang::<K>(nodes, m.second, m.first, back, rank, m.left);
    } else {
        let left = K::moved(back, m.left);
        hang::<K>(nodes, m.first, m.second, m.by, second, left);
    }
}
