// The walk from a point to its reference.
ghost use Rattle.std.specs.Prelude.{◌≡◌};
ghost use Rattle.table.specs.Walk.{walked, Carries};
ghost use Rattle.table.specs.Words.{route_read};

use crate::node::NodeOf;
use crate::storage::load;
use kind::Kind;

// What a walk gives: the value of the point is the relation applied to the value of the reference.
#[derive(Clone, Copy, PartialEq, Eq, Debug)]
pub struct Route<R> {
    pub reference: u8,
    pub relation: R,
}

// Follows links from x to a point that is linked to itself.
pub fn walk<K: Kind>(nodes: &[NodeOf<K>], x: u8) -> Route<K::Relation>
    ensures walked { route_read K.Kind result ≡ route_read K.Kind (walked K.Kind nodes.now x) }
    ensures means { Carries K.Kind nodes.now x result }
{
    let mut reference = x;
    let mut relation = K::identity();
    for _ in 0..nodes.len() {
        let node = load::<K>(nodes, reference);
        if node.link == reference {
            break;
        }
        relation = K::after(relation, node.relation);
        reference = node.link;
    }
    Route {
        reference,
        relation,
    }
}
