// A point of a table: the point that it is linked to, its relation to that point, its rank, and the set of values still
// possible. A point that is linked to itself is a reference, and only the set of a reference counts.
use kind::Kind;

#[derive(Clone, Copy, PartialEq, Eq, Debug)]
pub struct Node<R, S> {
    pub link: u8,
    pub relation: R,
    pub rank: u8,
    pub set: S,
}

// A node of a table of one kind. Links are numbers, since the memory is the caller's. A table goes by its nodes: a struct over a
// `&mut` would owe in each method that writes that it lends from the same memory, and those that read would need one more over a `&`.
pub type NodeOf<K> = Node<<K as Kind>::Relation, <K as Kind>::Set>;
