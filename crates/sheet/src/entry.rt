// An entry of the log: a point, with the node that it had before a line of a trial changed it.
use kind::Kind;
use table::Node;

#[derive(Clone, Copy, PartialEq, Eq, Debug)]
pub struct Entry<R, S> {
    pub point: u8,
    pub node: Node<R, S>,
}

// An entry of the log of a sheet of one kind.
pub type EntryOf<K> = Entry<<K as Kind>::Relation, <K as Kind>::Set>;
