//! Journals of commits, and commits that are logged.
ghost use Rattle.std.specs.Prelude.{◌≡◌};
ghost use Rattle.txn.specs.Txn.{Transaction};
ghost use Rattle.manager.specs.Managed.{IsOwn};

use codec::{entries_fit, write_part};
use delta::DeltaTree;
use journal::{Frame, write_frame};
use manager::Manager;
use model::CommitReply;
use replay::FrameBytes;
use std::alloc::Global;
use std::test::Fail;
use txn::Txn;
use values::{NoMemory, Schema};

/// The seed of every journal here.
const SEED: u32 = 0x1234_5678;

/// The number of the logged table in the payloads.
pub(crate) const TABLE: u32 = 7;

/// So many commits are synced at once.
const BATCH: u64 = 5;

/// The frames of the commits from 1 on.
#[derive(Drop)]
pub(crate) struct Journal {
    bytes: Vec<u8>,
    /// The place behind the frame of each number. No frame stands before that of 0.
    ends: Vec<usize>,
}

impl Journal {
    pub(crate) fn new(alloc: Global) -> Result<Journal, NoMemory> {
        let mut ends = Vec::new(alloc);
        ends.push(0)?;
        Ok(Journal {
            bytes: Vec::new(alloc),
            ends,
        })
    }

    pub(crate) fn bytes(&self) -> &[u8] {
        self.bytes.as_slice()
    }

    /// How many commits it has.
    pub(crate) fn len(&self) -> u64 {
        (self.ends.len() as u64).wrapping_sub(1)
    }

    /// How many frames are whole in the first so many bytes.
    pub(crate) fn whole_in(&self, count: usize) -> u64 {
        let whole = self.ends.iter().filter(|end| **end <= count).count();
        (whole as u64).wrapping_sub(1)
    }

    /// The place behind the frame of a number.
    pub(crate) fn end_of(&self, number: u64) -> usize {
        match self.ends.get(number as usize) {
            Some(end) => *end,
            None => self.bytes.len(),
        }
    }

    /// The greatest number that its last frame tells to be synced.
    pub(crate) fn synced(&self) -> u64 {
        synced_before(self.len())
    }

    /// Forgets the frames after that of a number, and what stands behind them.
    pub(crate) fn cut_to(&mut self, number: u64) {
        let end = self.end_of(number);
        self.bytes.truncate(end);
        self.ends.truncate((number as usize).saturating_add(1));
    }

    /// Adds the frame of the next commit, which tells that the batches before its own were synced.
    pub(crate) fn push(&mut self, payload: &[u8]) -> Result<(), Fail> {
        if payload.len() > u32::MAX as usize {
            return Err(Fail::new("a payload that is too long for a frame"));
        }
        let number = self.len().wrapping_add(1);
        let frame = Frame {
            number,
            synced: synced_before(number),
            payload,
        };
        write_frame(SEED, &frame, &mut self.bytes)?;
        let end = self.bytes.len();
        self.ends.push(end)?;
        Ok(())
    }
}

/// The last number of the batches before that of a number.
fn synced_before(number: u64) -> u64 {
    let before = number.wrapping_sub(1);
    before.wrapping_sub(before % BATCH)
}

/// Bytes as the frames of a journal behind the commit of a number.
pub(crate) fn frames_behind(base: u64, bytes: &[u8]) -> FrameBytes<'_>
    ensures base { result.base ≡ base }
    ensures bytes { result.bytes.now ≡ bytes.now }
{
    FrameBytes {
        seed: SEED,
        base,
        bytes,
    }
}

/// The frame of a commit that changes no table.
pub(crate) fn empty_frame(alloc: Global, number: u64) -> Result<Vec<u8>, NoMemory> {
    let frame = Frame {
        number,
        synced: 0,
        payload: &[],
    };
    let mut bytes = Vec::new(alloc);
    write_frame(SEED, &frame, &mut bytes)?;
    Ok(bytes)
}

/// Adds the part of a table to a payload.
pub(crate) fn push_part(
    schema: &Schema,
    table: u32,
    tree: &DeltaTree,
    payload: &mut Vec<u8>,
) -> Result<(), Fail> {
    if !entries_fit(schema, tree) {
        return Err(Fail::new("a tree that does not fit its schema"));
    }
    Ok(write_part(schema, table, tree, payload)?)
}

/// The reply to the commit of a transaction. Where it is granted, the payload gets the part of the table.
pub(crate) fn commit_part(
    manager: &mut Manager,
    txn: Txn,
    table: u32,
    payload: &mut Vec<u8>,
) -> Result<CommitReply, Fail>
    requires own { IsOwn manager.old txn }
    ensures kept { (other : Transaction) → IsOwn manager.old other → IsOwn manager.new other }
{
    let prepared = match manager.prepare(&txn) {
        Ok(prepared) => prepared,
        Err(fault) => {
            txn.abort();
            return Err(fault.into());
        }
    };
    if let Some(tree) = prepared.tree() {
        if let Err(fault) = push_part(manager.version().schema(), table, tree, payload) {
            txn.abort();
            return Err(fault);
        }
    }
    Ok(manager.install(txn, prepared))
}

/// The reply to the commit of a transaction, which is logged where it is granted.
pub(crate) fn log_commit(
    alloc: Global,
    manager: &mut Manager,
    txn: Txn,
    journal: &mut Journal,
) -> Result<CommitReply, Fail>
    requires own { IsOwn manager.old txn }
    ensures kept { (other : Transaction) → IsOwn manager.old other → IsOwn manager.new other }
{
    let mut payload = Vec::new(alloc);
    let reply = commit_part(manager, txn, TABLE, &mut payload)?;
    if let CommitReply::Committed(_) = reply {
        journal.push(payload.as_slice())?;
    }
    Ok(reply)
}
