// Opening a sheet.
ghost use Rattle.std.specs.Prelude.{◌≡◌, ◌/◌, min, length, drop};
ghost use Rattle.sheet.specs.State.{new_sheet};
ghost use Rattle.sheet.specs.View.{view};

use crate::entry::EntryOf;
use crate::sheet::Sheet;
use kind::Kind;
use table::{NodeOf, renew};

// A new sheet: each point is a reference with the identity, rank 0 and every value. The log is not written.
pub fn open<'a, K: Kind>(
    nodes: &'a mut [NodeOf<K>],
    log: &'a mut [EntryOf<K>],
    number: u8,
) -> Sheet<'a, K>
    ensures state { view result ≡ new_sheet K.Kind number (min (length nodes.old) 256) (min (length log.old) 512 / 2) }
    ensures past { drop 256 result.nodes.now ≡ drop 256 nodes.old }
    ensures log { result.log.now ≡ log.old }
    ensures nodes_lent { result.nodes.ghost_name ≡ nodes.entry.ghost_name }
    ensures log_lent { result.log.ghost_name ≡ log.entry.ghost_name }
{
    renew::<K>(nodes);
    Sheet { nodes, log, number }
}
