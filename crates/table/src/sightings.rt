// What a sighting leaves to the reference of its point.
ghost use Rattle.table.specs.See.{Narrows};

use crate::node::NodeOf;
use crate::storage::load;
use crate::walks::walk;
use kind::Kind;

// A reference, and the set left to it.
#[derive(Clone, Copy, PartialEq, Eq, Debug)]
pub struct Narrowing<S> {
    pub reference: u8,
    pub left: S,
}

// Where the value of x is seen to belong to s.
pub fn narrow<K: Kind>(nodes: &[NodeOf<K>], x: u8, s: K::Set) -> Narrowing<K::Set>
    ensures { Narrows K.Kind nodes.now x s result }
{
    let route = walk::<K>(nodes, x);
    let node = load::<K>(nodes, route.reference);
    let left = K::common(node.set, K::moved(K::inverse(route.relation), s));
    Narrowing {
        reference: route.reference,
        left,
    }
}
