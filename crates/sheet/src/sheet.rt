// A sheet lends its points and its log from the caller. It uses the first 256 nodes and the first 512 log entries.
use crate::entry::EntryOf;
use kind::Kind;
use table::NodeOf;

#[derive(Drop)]
pub struct Sheet<'a, K: Kind> {
    pub(crate) nodes: &'a mut [NodeOf<K>],
    pub(crate) log: &'a mut [EntryOf<K>],
    // The caller's own number for the sheet; an enum would have to list the sheets of every caller.
    pub(crate) number: u8,
}
