//! The queue of frames to be written.
ghost use Rattle.std.specs.Prelude.{◌≡◌, ◌<◌, ◌≤◌, ◌^◌, ◌++◌, [], length, Err, MatchResult, OnErr, OnOk};
ghost use Rattle.journal.specs.Frame.{frame_bytes};
ghost use Rattle.journal.specs.Reading.{logged_in};
ghost use Rattle.manager.specs.Managed.{IsOwn};
ghost use Rattle.manager.specs.Prepared.{IsPrepared};
ghost use Rattle.codec.specs.declared.fault.SpellFault.TheVariants as spell_fault;
ghost use Rattle.durable.specs.Spelled.{IsReadBack, payload_of};
ghost use Rattle.durable_sessions.specs.Staged.{Queued, staged_of};

use codec::SpellFault;
use durable::spell_prepared;
use journal::{Frame, frame_head};
use manager::{Manager, Prepared};
use std::alloc::{AllocError, Global};
use std::marker::Model;
use std::mem;
use txn::Txn;

/// The frames that wait to be written, and behind them one that is staged until its commit is published.
#[derive(Drop)]
pub struct FrameQueue {
    bytes: Vec<u8>,
    /// How many of the bytes wait.
    len: usize,
    /// The payload of the staged commit. It is scratch space between two calls.
    payload: Vec<u8>,
    seed: u32,
    table: u32,
}

impl Model for FrameQueue {
    ghost use Rattle.std.specs.Prelude.{◌≤◌, take, drop, length};
    ghost use Rattle.durable_sessions.specs.Staged.{Queued};

    ghost Value = { Queued };

    ghost view = { λ q. record { waiting = take q.len q.bytes.items; staged = drop q.len q.bytes.items; seed = q.seed; table = q.table } };

    ghost invariant = { λ q. q.len ≤ length q.bytes.items };
}

/// Appends a frame to the bytes.
///
/// # Errors
///
/// `NoMemory` where a growth is refused: nothing changes.
fn put_frame(bytes: &mut Vec<u8>, seed: u32, frame: &Frame<'_>) -> Result<(), AllocError>
    requires { length frame.now.payload.now < 2 ^ 32 }
    ensures { MatchResult result (λ _. bytes.new.items ≡ bytes.old.items ++ frame_bytes seed (logged_in frame.now))
        (λ _. bytes.new.items ≡ bytes.old.items) }
{
    let before = bytes.len();
    let head = frame_head(seed, frame);
    let Ok(()) = bytes.extend_from_slice(&head) else {
        return Err(AllocError);
    };
    let Ok(()) = bytes.extend_from_slice(frame.payload) else {
        bytes.truncate(before);
        return Err(AllocError);
    };
    Ok(())
}

impl FrameQueue {
    /// An empty queue.
    pub fn new(alloc: Global, seed: u32, table: u32) -> FrameQueue
        ensures { result ≡ record { waiting = []; staged = []; seed = seed; table = table } }
    {
        FrameQueue {
            bytes: Vec::new(alloc),
            len: 0,
            payload: Vec::new(alloc),
            seed,
            table,
        }
    }

    /// Stages the frame of what was prepared, if the reply is Committed. Its head notes the commits up to `synced` as durable.
    ///
    /// # Errors
    ///
    /// `TooLong` where the payload would have 2^32 bytes or more, `NoMemory` where a growth is refused: nothing changes.
    pub fn stage(
        &mut self,
        manager: &Manager,
        txn: &Txn,
        prepared: &Prepared,
        synced: u64,
    ) -> Result<(), SpellFault>
        requires none { self.old.staged ≡ [] }
        requires own { IsOwn manager.now txn.now }
        requires prepared { IsPrepared manager.now txn.now prepared.now }
        ensures ok { OnOk result (self.new ≡ record self.old
            { staged = staged_of self.old.seed self.old.table manager.now txn.now synced prepared.now.reply }) }
        ensures again { OnOk result (IsReadBack manager.now self.old.table txn.now prepared.now.reply) }
        ensures long { result ≡ Err spell_fault.TooLong → 2 ^ 32 ≤ length (payload_of self.old.table manager.now txn.now) }
        ensures err { OnErr result (self.new ≡ self.old) }
    {
        match spell_prepared(&mut self.payload, self.table, manager, txn, prepared)? {
            Some(number) => {
                let frame = Frame {
                    number,
                    synced,
                    payload: self.payload.as_slice(),
                };
                put_frame(&mut self.bytes, self.seed, &frame)?;
                Ok(())
            }
            None => Ok(()),
        }
    }

    /// The staged frame joins those that wait.
    pub fn append(&mut self)
        ensures { self.new ≡ record self.old { waiting = self.old.waiting ++ self.old.staged; staged = [] } }
    {
        self.len = self.bytes.len();
    }

    /// Drops the staged frame.
    pub fn unstage(&mut self)
        ensures { self.new ≡ record self.old { staged = [] } }
    {
        self.bytes.truncate(self.len);
    }

    /// Takes the frames that wait. The spare buffer takes their place.
    pub fn take(&mut self, spare: Vec<u8>) -> Vec<u8>
        requires { self.old.staged ≡ [] }
        ensures bytes { result.items ≡ self.old.waiting }
        ensures none { self.new ≡ record self.old { waiting = []; staged = [] } }
    {
        let mut spare = spare;
        spare.clear();
        self.len = 0;
        mem::replace(&mut self.bytes, spare)
    }
}
