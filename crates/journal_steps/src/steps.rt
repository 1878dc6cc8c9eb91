//! How far a journal has come, which step is due next, and what each event makes of it.
ghost use Rattle.std.specs.Prelude.{◌≡◌, ◌+◌, ◌≤◌, ◌^◌, OnErr, OnOk, IfErr, IfOk, is_some, length, true};
ghost use Rattle.journal_steps.specs.Batch.{payload_in};
ghost use Rattle.journal_steps.specs.Progress.{added, began, broken_by, due, due_append, due_next_by, due_sync_by, ended, header_due, lane_toward, may_add, newest, oldest, removed, reopened, stopped, turned, wanted, withdrawn};
ghost use Rattle.journal_steps.specs.declared.fault.AddFault.TheVariants as add_fault;

use crate::batch::{Batch, HEAD_BYTES};
use crate::fault::AddFault;
use crate::step::{Ahead, Goal, Lane, Step};
use journal::{Header, NUMBER_LIMIT};
use std::alloc::Global;
use std::marker::Model;
use std::mem;

/// The least length that no payload has.
const PAYLOAD_LIMIT: u64 = 1 << 32;

/// How far a journal has come.
#[derive(Drop)]
pub struct Steps {
    /// The seed of the frames' checks.
    seed: u32,
    salt: u64,
    store: u64,
    /// The newest commit that was handed out in a batch.
    taken: u64,
    /// The newest commit whose append is done.
    written: u64,
    durable: u64,
    /// The commit before the first frame of the file that is written.
    base: u64,
    /// The number of that file.
    seq: u64,
    /// The number of the oldest file.
    first: u64,
    /// The newest commit that the sync under way makes durable.
    syncing: Option<u64>,
    ahead: Ahead,
    /// Whether a write or a sync has failed.
    broken: bool,
    /// The frames of the commits that no batch has yet, each with room for its head.
    waiting: Vec<Vec<u8>>,
}

impl Model for Steps {
    ghost use Rattle.std.specs.Prelude.{◌≡◌, map};
    ghost use Rattle.journal.specs.Header.{seed_of};
    ghost use Rattle.journal_steps.specs.Batch.{HaveRooms, payload_in};
    ghost use Rattle.journal_steps.specs.Progress.{IsReady, Progress};

    ghost Value = { Progress };

    ghost view = { λ s. record {
      salt = s.salt;
      store = s.store;
      taken = s.taken;
      written = s.written;
      durable = s.durable;
      base = s.base;
      seq = s.seq;
      first = s.first;
      syncing = s.syncing;
      ahead = s.ahead;
      broken = s.broken;
      waiting = map (λ v. payload_in v.items) s.waiting.items;
    } };

    ghost invariant = { λ s. (s.seed ≡ seed_of s.salt) × IsReady (record {
      salt = s.salt;
      store = s.store;
      taken = s.taken;
      written = s.written;
      durable = s.durable;
      base = s.base;
      seq = s.seq;
      first = s.first;
      syncing = s.syncing;
      ahead = s.ahead;
      broken = s.broken;
      waiting = map (λ v. payload_in v.items) s.waiting.items;
    }) × HaveRooms (map (λ v. v.items) s.waiting.items) };
}

impl Steps {
    /// A journal whose commits up to `newest` are durable, and which goes on at the end of the file `seq` with this header. Its oldest file
    /// is `first`. There is none where these numbers aren't in this order, or too great. Takes no memory.
    pub fn new(alloc: Global, header: &Header, newest: u64, first: u64, seq: u64) -> Option<Steps>
        ensures { result ≡ reopened header.now newest first seq }
    {
        if newest < header.base() {
            return None;
        }
        if newest >= NUMBER_LIMIT {
            return None;
        }
        if seq > NUMBER_LIMIT {
            return None;
        }
        if seq < first {
            return None;
        }
        Some(Steps {
            seed: header.seed(),
            salt: header.salt(),
            store: header.store(),
            taken: newest,
            written: newest,
            durable: newest,
            base: header.base(),
            seq,
            first,
            syncing: None,
            ahead: Ahead::NotWanted,
            broken: false,
            waiting: Vec::new(alloc),
        })
    }

    /// The number of the newest commit that a crash leaves: commits up to it may be acknowledged.
    pub fn durable(&self) -> u64
        ensures { result ≡ self.now.durable }
    {
        self.durable
    }

    /// The number of the newest commit whose append is done.
    pub fn written(&self) -> u64
        ensures { result ≡ self.now.written }
    {
        self.written
    }

    /// The number of the file that is written.
    pub fn file(&self) -> u64
        ensures { result ≡ self.now.seq }
    {
        self.seq
    }

    /// The number of the oldest file.
    pub fn first_file(&self) -> u64
        ensures { result ≡ self.now.first }
    {
        self.first
    }

    /// Whether a write or a sync has failed: no commit becomes durable any more.
    pub fn is_broken(&self) -> bool
        ensures { result ≡ self.now.broken }
    {
        self.broken
    }

    /// The number of the newest commit.
    pub fn newest(&self) -> u64
        ensures { result ≡ newest self.now }
    {
        self.taken + self.waiting.len() as u64
    }

    /// Adds a commit with this frame, whose head is filled later. It waits for the next batch. Returns its number: it is durable once
    /// `durable` has reached that.
    ///
    /// # Errors
    ///
    /// `TooLong` where the payload has 2^32 bytes or more, `Full` where the commit's number would be 2^63 or more, `NoMemory` where a growth
    /// is refused: nothing has changed.
    pub fn add(&mut self, frame: Vec<u8>) -> Result<u64, AddFault>
        requires room { 28 ≤ length frame.items }
        ensures number { IfOk result (λ number. number ≡ newest self.old + 1) }
        ensures ok { OnOk result ((may_add (payload_in frame.items) self.old ≡ true) × (self.new ≡ added (payload_in frame.items) self.old)) }
        ensures long { IfErr result (λ fault. fault ≡ add_fault.TooLong → 2 ^ 32 ≤ length (payload_in frame.items)) }
        ensures full { IfErr result (λ fault. fault ≡ add_fault.Full → 2 ^ 63 ≤ newest self.old + 1) }
        ensures err { OnErr result (self.new ≡ self.old) }
    {
        if (frame.len() - HEAD_BYTES) as u64 >= PAYLOAD_LIMIT {
            return Err(AddFault::TooLong);
        }
        let number = self.newest() + 1;
        if number >= NUMBER_LIMIT {
            return Err(AddFault::Full);
        }
        self.waiting.push(frame)?;
        Ok(number)
    }

    /// Takes back the newest commit, where no batch has it yet: it was prepared, and is given up.
    pub fn withdraw(&mut self)
        ensures { self.new ≡ withdrawn self.old }
    {
        self.waiting.pop();
    }

    /// No step is due any more, and no commit becomes durable: something beside the journal has failed that its commits need.
    pub fn stop(&mut self)
        ensures { self.new ≡ stopped self.old }
    {
        self.broken = true;
    }

    /// Whether a step is due in a lane.
    pub fn is_due(&self, lane: Lane) -> bool
        ensures { result ≡ is_some (due lane self.now) }
    {
        if self.broken {
            return false;
        }
        match lane {
            Lane::Append => {
                self.ahead != Ahead::Kept && self.written == self.taken && !self.waiting.is_empty()
            }
            Lane::Sync => self.syncing.is_none() && self.durable < self.written,
            Lane::Next => self.ahead == Ahead::Wanted || self.ahead == Ahead::Made,
        }
    }

    /// The lane in which a step is due, or under way, before a commit that was added is written, or durable.
    pub fn lane_toward(&self, goal: Goal) -> Lane
        ensures { result ≡ lane_toward goal self.now }
    {
        match goal {
            Goal::Written if self.ahead == Ahead::Kept => Lane::Sync,
            Goal::Durable if self.durable < self.written => Lane::Sync,
            Goal::Written | Goal::Durable => Lane::Append,
        }
    }

    /// The journal is to go on in a new file, unless the file that is written has no commit yet.
    pub fn want_next(&mut self)
        ensures { self.new ≡ wanted self.old }
    {
        if self.ahead == Ahead::NotWanted && self.base != self.taken && self.seq < NUMBER_LIMIT {
            self.ahead = Ahead::Wanted;
        }
    }

    /// The oldest file, which the caller may remove: the journal doesn't count on it any more. There is none while it is the file that is
    /// written. The caller owes that no image needs the file's commits.
    pub fn remove_oldest(&mut self) -> Option<u64>
        ensures file { result ≡ oldest self.old }
        ensures new { self.new ≡ removed (oldest self.old) self.old }
    {
        if self.first < self.seq {
            let first = self.first;
            self.first += 1;
            Some(first)
        } else {
            None
        }
    }

    /// The step that is due in a lane, which is under way from now on. There is none while another one of the lane is under way, and none
    /// after a write or a sync that failed. Takes no memory.
    pub fn next(&mut self, alloc: Global, lane: Lane) -> Option<Step>
        ensures step { result ≡ due lane self.old }
        ensures new { self.new ≡ began (due lane self.old) self.old }
    {
        match lane {
            Lane::Append => self.next_batch(alloc),
            Lane::Sync => self.next_sync(),
            Lane::Next => self.next_file(),
        }
    }

    /// The commits that wait, as one batch.
    fn next_batch(&mut self, alloc: Global) -> Option<Step>
        ensures step { result ≡ due_append self.old }
        ensures new { self.new ≡ began (due_append self.old) self.old }
    {
        if self.broken || self.ahead == Ahead::Kept || self.written != self.taken {
            return None;
        }
        if self.waiting.is_empty() {
            return None;
        }
        let header = self.header_due();
        let first = self.taken + 1;
        self.taken += self.waiting.len() as u64;
        Some(Step::Append(Batch {
            seq: self.seq,
            header,
            seed: self.seed,
            first,
            durable: self.durable,
            frames: mem::replace(&mut self.waiting, Vec::new(alloc)),
        }))
    }

    /// The header of the file that is written, where it has no commit yet.
    #[tactic(auto, unfolding(journal::specs::Header::header_with))]
    fn header_due(&self) -> Option<Header>
        ensures { result ≡ header_due self.now }
    {
        if self.taken == self.base {
            Header::new(self.salt, self.store, self.base)
        } else {
            None
        }
    }

    /// The sync of what is written.
    fn next_sync(&mut self) -> Option<Step>
        ensures step { result ≡ due_sync_by self.old.syncing self.old }
        ensures new { self.new ≡ began (due_sync_by self.old.syncing self.old) self.old }
    {
        if self.syncing.is_some() || self.broken || self.durable >= self.written {
            return None;
        }
        self.syncing = Some(self.written);
        Some(Step::Sync(self.seq))
    }

    /// The next file, or its name.
    fn next_file(&mut self) -> Option<Step>
        ensures step { result ≡ due_next_by self.old.ahead self.old }
        ensures new { self.new ≡ began (due_next_by self.old.ahead self.old) self.old }
    {
        if self.broken {
            return None;
        }
        match self.ahead {
            Ahead::Wanted => {
                self.ahead = Ahead::Making;
                Some(Step::Create(self.seq + 1))
            }
            Ahead::Made => {
                self.ahead = Ahead::Keeping;
                Some(Step::SyncNames)
            }
            _ => None,
        }
    }

    /// The step under way in a lane is done. A sync makes durable what was written when it began.
    pub fn done(&mut self, lane: Lane)
        ensures { self.new ≡ ended lane self.old }
    {
        match lane {
            Lane::Append => {
                if !self.broken {
                    self.written = self.taken;
                }
            }
            Lane::Sync => {
                if let Some(upto) = self.syncing {
                    self.syncing = None;
                    if !self.broken {
                        self.durable = upto;
                    }
                }
            }
            Lane::Next => match self.ahead {
                Ahead::Making => self.ahead = Ahead::Made,
                Ahead::Keeping => self.ahead = Ahead::Kept,
                _ => {}
            },
        }
        self.turn_over();
    }

    /// Goes on in the next file, whose name is durable, once each commit before is.
    fn turn_over(&mut self)
        ensures { self.new ≡ turned self.old }
    {
        if self.ahead == Ahead::Kept && !self.broken && self.durable == self.taken {
            self.seq += 1;
            self.base = self.taken;
            self.ahead = Ahead::NotWanted;
        }
    }

    /// The step under way in a lane has failed. After a write or a sync no step is due any more, and no commit becomes durable: the system
    /// may have dropped what it couldn't write. A new file that couldn't be made, or its name synced, is wanted again later.
    pub fn failed(&mut self, lane: Lane)
        ensures { self.new ≡ broken_by lane self.old }
    {
        match lane {
            Lane::Append => {
                if self.written != self.taken {
                    self.broken = true;
                }
            }
            Lane::Sync => {
                if self.syncing.is_some() {
                    self.syncing = None;
                    self.broken = true;
                }
            }
            Lane::Next => {
                if self.ahead == Ahead::Making || self.ahead == Ahead::Keeping {
                    self.ahead = Ahead::NotWanted;
                }
            }
        }
    }
}
