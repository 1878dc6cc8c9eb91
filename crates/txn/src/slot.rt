//! The slot of a transaction's record in a history.
ghost use Rattle.std.specs.Prelude.{◌≡◌, ◌∷◌, [], length};

use model::{CommitReply, Record};
use std::alloc::Global;
use std::collections::LinkedList;
use values::NoMemory;

/// A link of a history, made at the begin of a transaction: its commit takes no memory to enter the record.
#[derive(Drop)]
pub(crate) struct RecordSlot {
    /// One link. Until the commit it holds a record that stands for none.
    link: LinkedList<Record>,
    ghost single: { length link ≡ 1 },
}

impl RecordSlot {
    /// A slot with no record in it yet.
    pub(crate) fn new(alloc: Global) -> Result<RecordSlot, NoMemory> {
        let nothing = Record::new(0, 0, Vec::new(alloc), CommitReply::TooOld(0));
        let mut link = LinkedList::new(alloc);
        link.push_back(nothing)?;
        Ok(RecordSlot { link })
    }

    /// The record in its slot, as a history of one. Takes no memory.
    pub(crate) fn with(self, entry: Record) -> LinkedList<Record>
        ensures { result ≡ entry ∷ [] }
    {
        let mut link = self.link;
        *link.front_mut().unwrap() = entry;
        link
    }
}
