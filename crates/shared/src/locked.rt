//! What lies under the lock: the manager with its store, and what publishes its versions.
ghost use Rattle.std.specs.Prelude.{◌≡◌, ◌+◌, ◌<◌, ◌≤◌, ◌^◌, [], IfErr, IfOk, MatchResult, OnErr, OnOk};
ghost use mathlib.Core.List.{IsPrefix};
ghost use Rattle.manager.specs.Managed.{HasFolded, IsDecided, IsManaged, IsOwn, cut_of, history_of, newest_number, rebuilt_of};
ghost use Rattle.manager.specs.Prepared.{IsPrepared};
ghost use Rattle.txn.specs.Txn.{effects_of};
ghost use Rattle.model.specs.History.{IsLegal};
ghost use Rattle.publishing.specs.Lists.{IsBegun, IsCutAfter, IsListed, IsOfList, IsShownAgain, layered_version, number_in};
ghost use Rattle.shared.specs.Endings.{GoesOn};
ghost use Rattle.shared.specs.Generations.{IsAnswered};
ghost use Rattle.shared.specs.Sessions.{IsReplied, number_of};
ghost use Rattle.shared.specs.Stands.{IsGrown, IsReleased, IsShownAfter, IsShownBefore};

use crate::laws::kept;
use crate::publisher::Publisher;
use crate::store::{ImageStore, exchange};
use manager::{CheckpointFault, History, Manager, Prepared, Released};
use model::CommitReply;
use publishing::{Opening, SeenList};
use std::marker::Model;
use std::sync::Wait;
use std::sync::ledger::{Book, Share};
use txn::Txn;
use values::NoMemory;

/// Counts a reply in the book and in the session's share, which is no greater than the book.
fn count_reply<O: Opening>(book: &mut Book<O>, share: &mut Share<O>)
    requires { share.old.parts ≡ 1 }
    ensures total { book.new.total ≡ book.old.total + 1 }
    ensures amount { share.new.amount ≡ share.old.amount + 1 }
    ensures parts { share.new.parts ≡ share.old.parts }
    ensures bound { share.new.amount ≤ book.new.total }
{
    book.add(share, 1);
    book.audit(share);
}

/// What lies under the lock: the manager, its store, and what publishes. Contracts see the manager and the published list,
/// whose commits, and whose start, are the manager's.
pub struct Locked<O: Opening, S: ImageStore> {
    manager: Manager,
    store: S,
    /// As many as the records made since the opening.
    book: Book<O>,
    /// What is left of the ledger once each session has its share.
    rest: Share<O>,
    publisher: Publisher<O>,
}

/// What lay under the lock, once readers find nothing any more.
pub struct Unlocked<O: Opening, S: ImageStore> {
    pub manager: Manager,
    pub store: S,
    pub book: Book<O>,
    /// A share with no part.
    pub rest: Share<O>,
    /// All that was published.
    pub list: SeenList,
}

impl<O: Opening, S: ImageStore> Model for Locked<O, S> {
    ghost use Rattle.std.specs.Prelude.{◌≡◌, ◌+◌};
    ghost use Rattle.publishing.specs.Lists.{IsListed};
    ghost use Rattle.shared.specs.Endings.{GoesOn};
    ghost use Rattle.shared.specs.Stands.{Stand};

    ghost Value = { Stand };

    ghost view = { λ s. record { manager = s.manager; list = s.publisher; next = S.next s.store } };

    ghost invariant = { λ s.
        IsListed O.opened.manager s.publisher s.manager
        × (s.manager.made ≡ O.opened.manager.made + s.book.total)
        × ((s.rest.parts ≡ 0) × (s.rest.amount ≡ 0))
        × (S.columns s.store ≡ s.manager.schema)
        × GoesOn O.opened.manager s.manager };
}

/// Why a commit isn't decided. The transaction stays open.
#[derive(Clone, Copy, Debug, PartialEq, Eq, Drop)]
pub enum Refused {
    /// A growth was refused.
    NoMemory,
    /// The session has seen more commits than the manager holds.
    Stranger,
}

impl<O: Opening, S: ImageStore> Locked<O, S> {
    /// The state at the opening, whose list has no items yet.
    pub fn new(
        manager: Manager,
        store: S,
        book: Book<O>,
        rest: Share<O>,
        publisher: Publisher<O>,
    ) -> Locked<O, S>
        requires opening { (publisher ≡ []) × (O.opened.manager ≡ manager) }
        requires book { (book.total ≡ 0) × (rest.parts ≡ 0) × (rest.amount ≡ 0) }
        requires store { S.columns store ≡ manager.schema }
        ensures { (result.manager ≡ manager) × (result.list ≡ []) × (result.next ≡ S.next store) }
    {
        Locked {
            manager,
            store,
            book,
            rest,
            publisher,
        }
    }

    /// The manager, to read. Takes no memory.
    pub fn manager(&self) -> &Manager
        ensures manager { result.now ≡ self.now.manager }
        ensures listed { IsListed O.opened.manager self.now.list self.now.manager }
    {
        &self.manager
    }

    /// All that was published. Takes no memory.
    pub fn list(&self) -> SeenList
        ensures list { result.list ≡ self.now.list }
        ensures opening { result.opening ≡ O.opened }
    {
        self.publisher.list()
    }

    /// What a commit of the transaction of a session that has seen some of the list is to do. Nothing changes.
    ///
    /// # Errors
    ///
    /// `Stranger` where the session has seen more commits than the manager holds, and `NoMemory` where a growth is refused.
    pub fn prepare(&self, txn: &Txn, seen: &SeenList) -> Result<Prepared, Refused>
        requires seen { (seen.now.opening ≡ O.opened) × IsBegun O.opened.manager seen.now.list txn.now }
        ensures own { OnOk result (IsOwn self.now.manager txn.now) }
        ensures prepared { IfOk result (λ prepared. IsPrepared self.now.manager txn.now prepared) }
        ensures caught_up { OnOk result (number_in O.opened.manager seen.now.list ≤ number_in O.opened.manager self.now.list) }
        ensures stranger { IfErr result (λ fault. fault ≡ Refused.Stranger → number_in O.opened.manager [] < number_in O.opened.manager seen.now.list) }
    {
        // Called for what its clauses tell.
        let _both = self.publisher.longer(seen);
        if self.publisher.is_behind(seen) {
            return Err(Refused::Stranger);
        }
        let Ok(prepared) = self.manager.prepare(txn) else {
            return Err(Refused::NoMemory);
        };
        Ok(prepared)
    }

    /// Commits what was prepared for the transaction of a session that has seen some of the list: publishes, installs, and tells
    /// the session. The session has then seen the whole list. What the commit lets go of comes out, so that the caller frees it
    /// without the lock.
    ///
    /// # Errors
    ///
    /// `NoMemory` where a growth is refused: nothing changes, and the transaction comes back.
    pub fn commit<R: Wait>(
        &mut self,
        rt: &R,
        txn: Txn,
        prepared: Prepared,
        share: &mut Share<O>,
        seen: &mut SeenList,
    ) -> Result<(CommitReply, SeenList, Released), (Txn, Refused)>
        requires seen { (seen.old.opening ≡ O.opened) × IsBegun O.opened.manager seen.old.list txn }
        requires part { share.old.parts ≡ 1 }
        requires own { IsOwn self.old.manager txn }
        requires prepared { IsPrepared self.old.manager txn prepared }
        requires caught_up { number_in O.opened.manager seen.old.list ≤ number_in O.opened.manager self.old.list }
        ensures decided { IfOk result (λ r. IsDecided self.old.manager txn r.0 self.new.manager) }
        ensures reply { IfOk result (λ r. r.0 ≡ prepared.reply) }
        ensures same { OnErr result (self.new ≡ self.old) }
        ensures err { IfErr result (λ e. (self.new.manager ≡ self.old.manager) × (e.0 ≡ txn) × (seen.new ≡ seen.old)) }
        ensures replied { IfOk result (λ r. IsReplied O.opened.manager seen.old.list seen.new.list txn r.0) }

        // At Committed the list has its item more, under the layers that the commit makes; else the list stays.
        ensures grown { IfOk result (λ r. IsGrown self.old.list self.new.list txn r.0) }
        ensures shown { IfOk result (λ r. IsShownAfter O.opened.manager self.old.manager.layers (effects_of txn) r.0 self.new.list) }
        ensures told { IfOk result (λ r. (r.1.opening ≡ O.opened) × (r.1.list ≡ self.new.list) × IsPrefix r.1.list seen.new.list) }
        ensures reached { IfOk result (λ r. number_of r.0 ≤ number_in O.opened.manager r.1.list) }
        ensures counted { MatchResult result (λ _. share.new.amount ≡ share.old.amount + 1) (λ _. share.new.amount ≡ share.old.amount) }
        ensures parts { share.new.parts ≡ share.old.parts }

        // No more replies than the manager made records.
        ensures bound { OnOk result (share.new.amount ≤ 2 ^ 62) }
        ensures refused { IfErr result (λ e. e.1 ≡ Refused.NoMemory) }
        ensures opening { seen.new.opening ≡ O.opened }
        ensures next { self.new.next ≡ self.old.next }
        ensures released { IfOk result (λ r. IsReleased self.old.manager txn r.2) }
    {
        let Locked {
            manager,
            store: _,
            book,
            rest: _,
            publisher,
        } = self;
        let both = publisher.longer(seen);
        let Ok(()) = publisher.show_commit(rt, manager, &txn, &prepared) else {
            return Err((txn, Refused::NoMemory));
        };
        let (reply, released) = manager.install_into(txn, prepared);
        count_reply(book, share);
        *seen = publisher.longer(&both);
        Ok((reply, publisher.list(), released))
    }

    /// Folds the Write-PDT into the Read-PDT, and publishes the same table under the manager's new layers.
    ///
    /// # Errors
    ///
    /// `NoMemory` where a growth is refused: the manager keeps its layers.
    pub fn fold<R: Wait>(&mut self, rt: &R) -> Result<(), NoMemory>
        ensures manager { MatchResult result (λ _. HasFolded self.old.manager self.new.manager) (λ _. self.new.manager ≡ self.old.manager) }
        ensures next { self.new.next ≡ self.old.next }
        ensures list { MatchResult result (λ _. IsShownAgain self.old.list (layered_version self.new.manager) self.new.list)
            (λ _. self.new.list ≡ self.old.list) }
    {
        let Locked {
            manager,
            store: _,
            book: _,
            rest: _,
            publisher,
        } = self;
        let folded = manager.prepare_fold()?;
        publisher.show_same(rt, manager, folded.version())?;
        manager.install_fold(folded);
        Ok(())
    }

    /// Writes the newest image to the store: asks whether that can take one, publishes the same table over the new stable
    /// one, and only then hands it to the devices and installs it.
    ///
    /// # Errors
    ///
    /// As those of `Manager::checkpoint`: the manager keeps its layers, and the same table is published.
    pub fn checkpoint<R: Wait>(&mut self, rt: &R) -> Result<u32, CheckpointFault>
        ensures manager { MatchResult result (λ _. self.new.manager ≡ rebuilt_of self.old.manager) (λ _. self.new.manager ≡ self.old.manager) }

        // What is published is over the new stable table, and that before the devices get it: where one of them fails, and
        // the manager keeps its layers, it is published all the same.
        ensures list { IsShownBefore self.old.list (layered_version (rebuilt_of self.old.manager)) result self.new.list }
        ensures answer { IsAnswered self.old.next result self.new.next }
    {
        let Locked {
            manager,
            store,
            book: _,
            rest: _,
            publisher,
        } = self;
        store.is_ready()?;
        let rebuilt = manager.prepare_checkpoint()?;
        publisher.show_same(rt, manager, rebuilt.version())?;
        store.take(manager, rebuilt)
    }

    /// Hands out the history so far, and publishes where the next one starts.
    ///
    /// # Errors
    ///
    /// `NoMemory` where a growth is refused: nothing changes.
    pub fn cut<R: Wait>(&mut self, rt: &R) -> Result<History, NoMemory>
        ensures ok { IfOk result (λ history. (history ≡ history_of self.old.manager) × (self.new.manager ≡ cut_of self.old.manager)) }
        ensures legal { IfOk result (λ history. IsLegal history.schema history.start history.records) }
        ensures next { self.new.next ≡ self.old.next }
        ensures of_list { IfOk result (λ history. IsOfList O.opened.manager self.old.list history) }
        ensures list { OnOk result
            (IsCutAfter self.old.list (newest_number self.old.manager) (layered_version self.old.manager) self.new.list) }
        ensures err { OnErr result (self.new ≡ self.old) }
    {
        let Locked {
            manager,
            store: _,
            book: _,
            rest: _,
            publisher,
        } = self;
        publisher.show_cut(rt, manager)?;
        let history = manager.cut();
        let _ = history.records();
        Ok(history)
    }

    /// Puts a store into the place of the held one, which comes out. Nothing is published.
    ///
    /// # Errors
    ///
    /// The given store, where it isn't for the manager's columns: nothing changes.
    pub fn swap(&mut self, store: S) -> Result<S, S>
        ensures same { (self.new.manager ≡ self.old.manager) × (self.new.list ≡ self.old.list) }
        ensures swapped { MatchResult result (λ old. (S.next old ≡ self.old.next) × (self.new.next ≡ S.next store))
            (λ _. self.new.next ≡ self.old.next) }
        ensures ok { IfOk result (λ old. (S.columns old ≡ O.opened.manager.schema) × (S.columns store ≡ O.opened.manager.schema)) }
        ensures err { IfErr result (λ back. (back ≡ store) × (S.columns store ≡ O.opened.manager.schema → ⊥)) }
    {
        let Locked {
            manager,
            store: held,
            book: _,
            rest: _,
            publisher: _,
        } = self;
        exchange(held, store, manager.version().schema())
    }

    /// All that it has. Readers find nothing from now on.
    pub fn close<R: Wait>(self, rt: &R) -> Unlocked<O, S>
        ensures manager { result.manager ≡ self.manager }
        ensures lawful { IsManaged result.manager }
        ensures listed { IsListed O.opened.manager self.list result.manager }
        ensures list { (result.list.list ≡ self.list) × (result.list.opening ≡ O.opened) }
        ensures store { S.columns result.store ≡ result.manager.schema }
        ensures next { S.next result.store ≡ self.next }
        ensures book { result.manager.made ≡ O.opened.manager.made + result.book.total }
        ensures goes_on { GoesOn O.opened.manager result.manager }
        ensures rest { (result.rest.parts ≡ 0) × (result.rest.amount ≡ 0) }
    {
        let Locked {
            manager,
            store,
            book,
            rest,
            publisher,
        } = self;
        kept(&manager);
        let list = publisher.close(rt);
        Unlocked {
            manager,
            store,
            book,
            rest,
            list,
        }
    }
}
