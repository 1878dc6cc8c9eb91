//! One client's session: it begins, writes, reads and aborts without the lock.
ghost use Rattle.std.specs.Prelude.{◌≡◌, ◌+◌, ◌≤◌, ◌<◌, [], length, IfErr, IfOk, IfSome, IsErr, IsOk, IsSome, OnErr, OnOk, MatchOption, Err, None, Some};
ghost use Rattle.std.specs.Option.{option_map};
ghost use mathlib.Core.List.{IsPrefix};
ghost use Rattle.left_right.specs.Sides.{view};
ghost use Rattle.values.specs.declared.limits.TheConstants.{MAX_ROWS};
ghost use Rattle.publishing.specs.Lists.{IsBegun, number_in};
ghost use Rattle.publishing.specs.Views.{IsOf};
ghost use Rattle.shared.specs.Sessions.{begun_in, new_seat, number_of, WasReplied, WasTold};
ghost use Rattle.shared.specs.Stands.{IsGrown, IsReleased};
ghost use Rattle.manager.specs.Managed.{IsDecided, IsOwn};
ghost use Rattle.manager.specs.Prepared.{IsPrepared};
ghost use Rattle.shared.specs.declared.fault.BeginFault.TheVariants as begin_fault;
ghost use Rattle.shared.specs.declared.fault.CommitFault.TheVariants as commit_fault;

use crate::fault::{BeginFault, CommitFault, NotOpen};
use crate::locked::{Locked, Refused};
use crate::store::ImageStore;
use crate::told::Told;
use manager::{Prepared, Released};
use model::CommitReply;
use publishing::{Opening, SeenList, VersionReader, newest_seen};
use std::alloc::Global;
use std::marker::Model;
use std::sync::Wait;
use std::sync::ledger::Share;
use txn::Txn;

/// One client's session. It waits for the lock only to commit.
pub struct Session<O: Opening> {
    client: u32,
    /// How many commit replies it got.
    count: u64,
    pub(crate) txn: Option<Txn>,
    /// Its part of the ledger, with the count for its amount.
    share: Share<O>,
    /// Nothing only while it reads.
    reader: Option<VersionReader>,
    list: SeenList,
    note: Option<SeenList>,
    row_limit: u64,
    alloc: Global,
}

/// What is left of a session that has ended.
pub struct EndedSession<O: Opening> {
    /// How many commit replies it got.
    pub count: u64,
    /// The share that stands for it, with the count for its amount.
    pub share: Share<O>,
    /// The list that it saw.
    pub seen: SeenList,
}

impl<O: Opening> Model for Session<O> {
    ghost use Rattle.std.specs.Prelude.{◌≡◌, ◌≤◌, IfSome};
    ghost use Rattle.left_right.specs.Sides.{view as sight};
    ghost use Rattle.values.specs.declared.limits.TheConstants.{MAX_ROWS};
    ghost use Rattle.publishing.specs.Views.{IsOf};
    ghost use Rattle.shared.specs.Sessions.{Seat, IsOfSeat, IsNote, note_in};

    ghost Value = { Seat };

    ghost view = { λ s. record { client = s.client; count = s.count; seen = s.list.list; txn = s.txn; note = note_in s.note } };

    ghost invariant = { λ s.
        ((s.share.parts ≡ 1) × (s.share.amount ≡ s.count))
        × (s.list.opening ≡ O.opened)
        × IsOfSeat O.opened.manager s.client s.list.list s.txn
        × IsNote O.opened s.list.list s.note
        × IfSome s.reader (λ r. IsOf O.opened (sight r.place))
        × ((s.row_limit ≡ O.opened.manager.start.limit) × (s.row_limit ≤ MAX_ROWS)) };
}

impl<O: Opening> Drop for Session<O> {
    fn drop(self) {
        let Self {
            client: _,
            count: _,
            txn,
            share: _share,
            reader: _reader,
            list: _list,
            note: _note,
            row_limit: _,
            alloc: _,
        } = self;
        if let Some(txn) = txn {
            txn.abort();
        }
    }
}

/// Puts a transaction into its place. One is not let go, so the place is emptied by hand.
fn put(place: &mut Option<Txn>, txn: Txn)
    ensures { place.new ≡ Some txn }
{
    if let Some(old) = place.replace(txn) {
        old.abort();
    }
}

impl<O: Opening> Session<O> {
    /// A session of a client, which has seen a list with no items.
    pub(crate) fn new(
        alloc: Global,
        client: u32,
        share: Share<O>,
        reader: VersionReader,
        list: SeenList,
        row_limit: u64,
    ) -> Session<O>
        requires share { (share.parts ≡ 1) × (share.amount ≡ 0) }
        requires list { (list.opening ≡ O.opened) × (list.list ≡ []) }
        requires reader { IsOf O.opened (view reader.place) }
        requires limit { (row_limit ≡ O.opened.manager.start.limit) × (row_limit ≤ MAX_ROWS) }
        ensures { result ≡ new_seat client }
    {
        Session {
            client,
            count: 0,
            txn: None,
            share,
            reader: Some(reader),
            list,
            note: None,
            row_limit,
            alloc,
        }
    }

    /// The client's number.
    pub fn client(&self) -> u32
        ensures { result ≡ self.now.client }
    {
        self.client
    }

    /// How many commit replies it got.
    pub fn count(&self) -> u64
        ensures { result ≡ self.now.count }
    {
        self.count
    }

    /// The open transaction.
    ///
    /// # Errors
    ///
    /// `NotOpen` where there is none.
    pub fn txn(&self) -> Result<&Txn, NotOpen>
        ensures found { MatchOption self.now.txn (IsErr result) (λ txn. IfOk result (λ found. found.now ≡ txn)) }
        ensures begun { IfOk result (λ found. IsBegun O.opened.manager self.now.seen found.now) }
        ensures open { OnErr result (self.now.txn ≡ None) }
    {
        match &self.txn {
            Some(txn) => Ok(txn),
            None => Err(NotOpen),
        }
    }

    /// Begins a transaction over the version that is published now, which has all that the session has seen. Waits for
    /// nobody, and takes the same time whatever the table holds.
    ///
    /// # Errors
    ///
    /// `AlreadyOpen` where a transaction is open; `Ended` where what the sessions share is closed, or no reader is
    /// admitted; `NoMemory` where a growth, or a share of the version, is refused.
    pub fn begin(&mut self) -> Result<(), BeginFault>
        ensures ok { OnOk result (self.new.txn ≡ Some (begun_in O.opened.manager self.new.seen self.old.client)) }
        ensures seen { IsPrefix self.old.seen self.new.seen }
        ensures twice { IsSome self.old.txn → result ≡ Err begin_fault.AlreadyOpen }
        ensures once { result ≡ Err begin_fault.AlreadyOpen → IsSome self.old.txn }
        ensures err { OnErr result (self.new ≡ self.old) }
        ensures same { (self.new.client ≡ self.old.client) × (self.new.count ≡ self.old.count) × (self.new.note ≡ self.old.note) }
    {
        if self.txn.is_some() {
            return Err(BeginFault::AlreadyOpen);
        }
        let mut seen = self.list.again();
        let version = newest_seen(&mut self.reader, &mut seen)?;
        let txn = Txn::open(self.alloc, version, self.client, self.row_limit)?;
        put(&mut self.txn, txn);
        self.list = seen;
        Ok(())
    }

    /// Ends the transaction, and leaves no record of it. Takes no memory.
    ///
    /// # Errors
    ///
    /// `NotOpen` where there is none.
    pub fn abort(&mut self) -> Result<(), NotOpen>
        ensures ok { OnOk result (IsSome self.old.txn) }
        ensures open { IsSome self.old.txn → IsOk result }
        ensures new { self.new ≡ record self.old { txn = None } }
    {
        match self.txn.take() {
            Some(txn) => {
                txn.abort();
                Ok(())
            }
            None => Err(NotOpen),
        }
    }

    /// Takes out what the session was told at its last commit reply, unless that was taken out since. Takes no memory.
    pub fn tell(&mut self) -> Option<Told<O>>
        ensures told { MatchOption result (self.old.note ≡ None)
            (λ told. (self.old.note ≡ Some told.list.list) × IsPrefix told.list.list self.old.seen) }
        ensures new { self.new ≡ record self.old { note = None } }
    {
        match self.note.take() {
            Some(list) => Some(Told::of(list)),
            None => None,
        }
    }

    /// Takes in what another session was told: what that has seen, this one has then seen too. Takes no memory.
    pub fn told(&mut self, told: Told<O>)
        ensures seen { IsPrefix self.old.seen self.new.seen × IsPrefix told.list.list self.new.seen }
        ensures same { self.new ≡ record self.old { seen = self.new.seen } }
    {
        let list = told.into_list();
        self.list = self.list.longer(&list);
    }

    /// What a commit of the transaction is to do over the state that the caller has locked. Nothing changes.
    ///
    /// # Errors
    ///
    /// `NotOpen` where no transaction is open, `Stranger` where the session has seen more commits than are held, `NoMemory`.
    pub fn prepare_at<S: ImageStore>(&self, state: &Locked<O, S>) -> Result<Prepared, CommitFault>
        ensures prepared { IfOk result (λ prepared. IfSome self.now.txn (λ txn. IsOwn state.now.manager txn × IsPrepared state.now.manager txn prepared)) }
        ensures some { OnOk result (IsSome self.now.txn) }
        ensures caught_up { OnOk result (number_in O.opened.manager self.now.seen ≤ number_in O.opened.manager state.now.list) }
        ensures open { self.now.txn ≡ None → result ≡ Err commit_fault.NotOpen }
        ensures undecided { result ≡ Err commit_fault.NotOpen → self.now.txn ≡ None }
        ensures stranger { result ≡ Err commit_fault.Stranger → number_in O.opened.manager [] < number_in O.opened.manager self.now.seen }
    {
        let Some(txn) = &self.txn else {
            return Err(CommitFault::NotOpen);
        };
        match state.prepare(txn, &self.list) {
            Ok(prepared) => Ok(prepared),
            Err(Refused::NoMemory) => Err(CommitFault::NoMemory),
            Err(Refused::Stranger) => Err(CommitFault::Stranger),
        }
    }

    /// Commits what was prepared for the transaction over the state that the caller has locked. What the commit lets go of comes
    /// out with the reply.
    ///
    /// # Errors
    ///
    /// `NoMemory` where a growth is refused: nothing changes.
    pub fn commit_at<S: ImageStore, R: Wait>(
        &mut self,
        rt: &R,
        state: &mut Locked<O, S>,
        prepared: Prepared,
    ) -> Result<(CommitReply, Released), CommitFault>
        requires some { IsSome self.old.txn }
        requires prepared { IfSome self.old.txn (λ txn. IsOwn state.old.manager txn × IsPrepared state.old.manager txn prepared) }
        requires caught_up { number_in O.opened.manager self.old.seen ≤ number_in O.opened.manager state.old.list }
        ensures replied { IfOk result (λ r. WasReplied O.opened.manager self.old self.new r.0) }
        ensures told { IfOk result (λ r. WasTold O.opened.manager self.new (number_of r.0)) }
        ensures reply { IfOk result (λ r. r.0 ≡ prepared.reply) }
        ensures decided { IfOk result (λ r. IfSome self.old.txn (λ txn. IsDecided state.old.manager txn r.0 state.new.manager)) }
        ensures grown { IfOk result (λ r. IfSome self.old.txn (λ txn. IsGrown state.old.list state.new.list txn r.0)) }
        ensures same { OnErr result (state.new ≡ state.old) }
        ensures released { IfOk result (λ r. IfSome self.old.txn (λ txn. IsReleased state.old.manager txn r.1)) }
        ensures ended { OnOk result ((self.new.txn ≡ None) × (self.new.count ≡ self.old.count + 1)) }
        ensures err { OnErr result (self.new ≡ self.old) }
        ensures refused { IfErr result (λ fault. fault ≡ commit_fault.NoMemory) }
        ensures client { self.new.client ≡ self.old.client }
    {
        let txn = self.txn.take().unwrap();
        match state.commit(rt, txn, prepared, &mut self.share, &mut self.list) {
            Ok((reply, note, released)) => {
                self.count += 1;
                self.note = Some(note);
                Ok((reply, released))
            }
            Err((txn, _)) => {
                put(&mut self.txn, txn);
                Err(CommitFault::NoMemory)
            }
        }
    }

    /// What is left of it. An open transaction is aborted.
    pub fn end(self) -> EndedSession<O>
        ensures share { (result.count ≡ self.count) × (result.share.parts ≡ 1) × (result.share.amount ≡ self.count) }
        ensures list { (result.seen.list ≡ self.seen) × (result.seen.opening ≡ O.opened) }
    {
        let Self {
            client: _,
            count,
            txn,
            share,
            reader: _reader,
            list,
            note: _note,
            row_limit: _,
            alloc: _,
        } = self;
        if let Some(txn) = txn {
            txn.abort();
        }
        EndedSession {
            count,
            share,
            seen: list,
        }
    }
}
