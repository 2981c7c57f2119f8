// The memory that a book lends from: for each sheet 64 points and 128 log entries, in arrays, since a book takes no heap.
ghost use Rattle.std.specs.Prelude.{◌≡◌};
ghost use Rattle.sheet.specs.State.{new_sheet};
ghost use Rattle.sheet.specs.View.{view};

use conductors::Phases;
use drums::Drums;
use kind::Kind;
use layers::FarEnd;
use leads::Leads;
use sheet::{Entry, EntryOf, Sheet};
use table::{NodeOf, new_node};
use temps::Temps;

#[derive(Drop)]
pub struct SheetMemory<K: Kind> {
    pub nodes: [NodeOf<K>; 64],
    pub log: [EntryOf<K>; 128],
}

#[derive(Drop)]
pub struct Memory {
    pub leads: SheetMemory<Leads>,
    pub phases: SheetMemory<Phases>,
    pub drums: SheetMemory<FarEnd<Drums>>,
    pub temps: SheetMemory<Temps>,
}

impl Memory {
    pub fn new() -> Memory {
        Memory {
            leads: SheetMemory::blank(),
            phases: SheetMemory::blank(),
            drums: SheetMemory::blank(),
            temps: SheetMemory::blank(),
        }
    }
}

impl<K: Kind> SheetMemory<K> {
    // Opening a sheet writes every point, and the log is written before it is read: what stands here does not matter.
    fn blank() -> SheetMemory<K> {
        let node = new_node::<K>(0);
        SheetMemory {
            nodes: [node; 64],
            log: [Entry { point: 0, node }; 128],
        }
    }

    pub(crate) fn open(&mut self, number: u8) -> Sheet<'_, K>
        ensures { view result ≡ new_sheet K.Kind number 64 64 }
    {
        let SheetMemory { nodes, log } = self;
        sheet::open(nodes, log, number)
    }
}
