// Looks.
ghost use Rattle.table.specs.Look.{Looks};

use crate::node::NodeOf;
use crate::storage::load;
use crate::walks::walk;
use kind::Kind;

// The set of values that x may still have.
pub fn look<K: Kind>(nodes: &[NodeOf<K>], x: u8) -> K::Set
    ensures { Looks K.Kind nodes.now x result }
{
    let route = walk::<K>(nodes, x);
    K::moved(route.relation, load::<K>(nodes, route.reference).set)
}
