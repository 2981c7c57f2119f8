// Nodes, read and written. Past the end of the table a read gives a new point's node, and a write does nothing.
ghost use Rattle.std.specs.Prelude.{◌≡◌, min, ◌++◌, length, drop, set};
ghost use Rattle.table.specs.Table.{fresh, fresh_from, at, settled};

use crate::node::{Node, NodeOf};
use kind::Kind;

pub fn new_node<K: Kind>(x: u8) -> NodeOf<K>
    ensures { result ≡ fresh K.Kind x }
{
    Node {
        link: x,
        relation: K::identity(),
        rank: 0,
        set: K::all(),
    }
}

pub fn load<K: Kind>(nodes: &[NodeOf<K>], x: u8) -> NodeOf<K>
    ensures { result ≡ at K.Kind nodes.now x }
{
    nodes
        .get(usize::from(x))
        .copied()
        .unwrap_or_else(|| new_node::<K>(x))
}

pub fn store<K: Kind>(nodes: &mut [NodeOf<K>], x: u8, node: NodeOf<K>)
    ensures { nodes.new ≡ set nodes.old x node }
{
    // By index: through `get_mut` the proof did not close.
    let i = usize::from(x);
    if i < nodes.len() {
        nodes[i] = node;
    }
}

// Reference r gets the set.
pub fn settle<K: Kind>(nodes: &mut [NodeOf<K>], r: u8, set: K::Set)
    ensures { nodes.new ≡ settled K.Kind nodes.old r set }
{
    let node = load::<K>(nodes, r);
    store::<K>(nodes, r, Node { set, ..node });
}

// Makes each of the first 256 points a new one.
pub fn renew<K: Kind>(nodes: &mut [NodeOf<K>])
    ensures { nodes.new ≡ fresh_from K.Kind 0 (min (length nodes.old) 256) ++ drop 256 nodes.old }
{
    let end = nodes.len().min(256);
    for (x, node) in nodes[..end].iter_mut().enumerate() {
        // Below 256: `zip` with the numbers of a u8 was tried, and its proof did not close
        *node = new_node::<K>(x as u8);
    }
}
