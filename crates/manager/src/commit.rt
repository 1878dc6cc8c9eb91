//! The commit of a transaction: decided by position against the trees of the commits since it began, and folded into
//! the Write-PDT.
ghost use Rattle.std.specs.Prelude.{◌≡◌, ◌<◌, ◌≤◌, ◌^◌, IsFalse, IsTrue, IfOk, IfErr, IfSome, IsErr, IsOk};
ghost use Rattle.std.specs.Option.{option_copied};
ghost use Rattle.txn.specs.Txn.{IsTransaction};

use crate::manager::Manager;
use crate::passing::passed_through;
use crate::replaced::{Released, Replaced, replace};
use delta::DeltaTree;
use layers::propagate;
use merge::grown;
use model::CommitReply;
use std::marker::Model;
use std::mem;
use std::sync::Arc;
use txn::{Txn, Version};
use values::NoMemory;

/// How many records a manager makes at most.
pub const MAX_RECORDS: u64 = 1 << 62;

/// What the commit of a transaction will do, made before anything changes.
#[derive(Drop)]
pub struct Prepared {
    pub(crate) reply: CommitReply,
    /// Nothing where the reply leaves the table.
    pub(crate) grant: Option<Grant>,
}

impl Model for Prepared {
    ghost use Rattle.manager.specs.Prepared.{Prepared as Deciding};

    ghost Value = { Deciding };

    ghost view = { λ p. record { reply = p.reply; granted = p.grant } };
}

/// The version after a commit.
#[derive(Drop)]
pub(crate) struct Grant {
    /// The commit's tree, over the table that it found.
    pub(crate) tree: DeltaTree,
    pub(crate) version: Version,
}

impl Model for Grant {
    ghost use Rattle.manager.specs.Prepared.{Granted};

    ghost Value = { Granted };

    ghost view = { λ g. record { tree = g.tree; layers = g.version.layers; version = g.version } };
}

impl Prepared {
    ghost use Rattle.manager.specs.Prepared.{spent, tree_in, version_in};

    /// The reply that `install` will give. Takes no memory.
    pub fn reply(&self) -> CommitReply
        ensures { result ≡ self.now.reply }
    {
        self.reply
    }

    /// The version that will then be the newest, where the transaction is committed. Takes no memory.
    pub fn version(&self) -> Option<&Version>
        ensures { option_copied result ≡ version_in self.now }
    {
        match &self.grant {
            Some(grant) => Some(grant.version()),
            None => None,
        }
    }

    /// The entries of the commit over the table that it finds, where the transaction is committed. Takes no memory.
    pub fn tree(&self) -> Option<&DeltaTree>
        ensures { option_copied result ≡ tree_in self.now }
    {
        match &self.grant {
            Some(grant) => Some(grant.tree()),
            None => None,
        }
    }

    /// Takes it out of its place, where the reply alone is left. Takes no memory.
    pub fn take(&mut self) -> Prepared
        ensures taken { result ≡ self.old }
        ensures left { self.new ≡ spent self.old }
    {
        let reply = self.reply;
        mem::replace(self, Prepared::refused(reply))
    }

    /// A reply that leaves the table.
    fn refused(reply: CommitReply) -> Prepared
        ensures { result ≡ record { reply = reply; granted = None } }
    {
        Prepared { reply, grant: None }
    }
}

impl Grant {
    fn tree(&self) -> &DeltaTree
        ensures { result.now ≡ self.now.tree }
    {
        &self.tree
    }

    fn version(&self) -> &Version
        ensures { result.now ≡ self.now.version }
    {
        &self.version
    }

    /// The version that it made. The tree is let go.
    pub(crate) fn into_version(self) -> Version
        ensures { result ≡ self.version }
    {
        let Grant {
            tree: _tree,
            version,
        } = self;
        version
    }
}

impl Manager {
    ghost use Rattle.manager.specs.Managed.{IsOwn, IsDecided, is_too_old};
    ghost use Rattle.manager.specs.Prepared.{IsPassed, IsPrepared, IsGrant, MayGrant};
    ghost use Rattle.manager.specs.Replaced.{released_by};

    /// Decides a transaction against the commits since it began, and adds its record: too old, in conflict with one of
    /// them, past the row limit, or committed. Its time grows with its own writes and with those commits, and with the
    /// table only as the logarithm. A transaction that is too old takes no memory.
    ///
    /// # Errors
    ///
    /// `NoMemory` where a growth is refused, where the manager has made 2^62 records, or where the transaction began below the
    /// floor and isn't too old: nothing changes, and the transaction comes back as it was.
    pub fn commit(&mut self, txn: Txn) -> Result<CommitReply, (Txn, NoMemory)>
        requires own { IsOwn self.old txn }
        ensures ok { IfOk result (λ reply. IsDecided self.old txn reply self.new) }
        ensures err { IfErr result (λ e. (self.new ≡ self.old) × (e.0 ≡ txn)) }
        ensures old { IsTrue (is_too_old self.old txn) → self.old.made < 2 ^ 62 → IsOk result }
        ensures below { txn.begin < self.old.floor → IsFalse (is_too_old self.old txn) → IsErr result }
    {
        match self.prepare(&txn) {
            Ok(prepared) => Ok(self.install(txn, prepared)),
            Err(fault) => Err((txn, fault)),
        }
    }

    /// What the commit of a transaction will do: all that it needs is made, and nothing changes. It costs what the commit
    /// does.
    ///
    /// # Errors
    ///
    /// `NoMemory` where a growth is refused, where the manager has made 2^62 records, or where the transaction began below the
    /// floor and isn't too old: the trees that decide it are let go.
    pub fn prepare(&self, txn: &Txn) -> Result<Prepared, NoMemory>
        requires own { IsOwn self.now txn.now }
        ensures prepared { IfOk result (λ prepared. IsPrepared self.now txn.now prepared) }
        ensures old { IsTrue (is_too_old self.now txn.now) → self.now.made < 2 ^ 62 → IsOk result }
        ensures below { txn.now.begin < self.now.floor → IsFalse (is_too_old self.now txn.now) → IsErr result }
    {
        if self.made >= MAX_RECORDS {
            return Err(NoMemory);
        }
        let count = self.newest.number();
        if self.is_too_old(txn) {
            return Ok(Prepared::refused(CommitReply::TooOld(count)));
        }
        if txn.begin() < self.floor() {
            return Err(NoMemory);
        }
        let Some(tree) = self.passed(txn)? else {
            return Ok(Prepared::refused(CommitReply::Conflict(count)));
        };
        if grown(self.newest.len(), &tree) > self.row_limit() {
            return Ok(Prepared::refused(CommitReply::Full(count)));
        }
        let grant = self.grant(tree)?;
        Ok(Prepared {
            reply: CommitReply::Committed(grant.version().number()),
            grant: Some(grant),
        })
    }

    /// Does what was prepared for this transaction while the history was as it is, and adds its record. Takes no memory.
    pub fn install(&mut self, txn: Txn, prepared: Prepared) -> CommitReply
        requires own { IsOwn self.old txn }
        requires prepared { IsPrepared self.old txn prepared }
        ensures decided { IsDecided self.old txn result self.new }

        // The version that was prepared is the newest one.
        ensures layers { IfSome prepared.granted (λ granted. self.new.layers ≡ granted.layers) }
    {
        let (reply, _released) = self.install_into(txn, prepared);
        reply
    }

    /// Does what `install` does, and frees nothing: what it lets go of comes out. Takes no memory.
    pub fn install_into(&mut self, txn: Txn, prepared: Prepared) -> (CommitReply, Released)
        requires own { IsOwn self.old txn }
        requires prepared { IsPrepared self.old txn prepared }
        ensures decided { IsDecided self.old txn result.0 self.new }
        ensures layers { IfSome prepared.granted (λ granted. self.new.layers ≡ granted.layers) }
        ensures released { result.1 ≡ released_by self.old txn prepared }
    {
        let Prepared { reply, grant } = prepared;
        let (links, rest) = txn.split(reply);
        let entry = self.history.enter(links);
        self.made += 1;
        let Some(grant) = grant else {
            return (reply, Released::new(entry, rest, Replaced::none()));
        };
        let replaced = replace(&mut self.newest, &mut self.kept, grant);
        (reply, Released::new(entry, rest, replaced))
    }

    /// Whether the commit of a transaction comes too late.
    fn is_too_old(&self, txn: &Txn) -> bool
        requires own { IsOwn self.now txn.now }
        ensures old { result ≡ is_too_old self.now txn.now }
        ensures lawful { IsTransaction txn.now }
    {
        let begin = txn.begin();
        begin < self.base() || (self.history.rules().recent as u64) < self.newest.number() - begin
    }

    /// The tree of a transaction made consecutive to the commits since it began, one at a time in their order, or none
    /// where it conflicts with one.
    fn passed(&self, txn: &Txn) -> Result<Option<DeltaTree>, NoMemory>
        requires own { IsOwn self.now txn.now }
        requires recent { IsFalse (is_too_old self.now txn.now) }
        requires decided { self.now.floor ≤ txn.now.begin }
        ensures { IfOk result (λ tree. IsPassed self.now txn.now tree) }
    {
        let since = (self.newest.number() - txn.begin()) as usize;
        let first = self.kept.len() - since;
        let tree = txn.tree().copy()?;
        let conflicts = self.history.rules().conflicts;
        passed_through(self.alloc, tree, &self.kept, first, conflicts)
    }

    /// The version with the tree of a commit folded into the Write-PDT.
    pub(crate) fn grant(&self, tree: DeltaTree) -> Result<Grant, NoMemory>
        requires { MayGrant self.now tree }
        ensures { IfOk result (λ grant. (w : MayGrant self.now tree) → IsGrant self.now w.x grant) }
    {
        let newest = &self.newest;
        let write = Arc::new(
            self.alloc,
            propagate(self.alloc, newest.write_tree(), &tree)?,
        )?;
        let stable = newest.stable().clone()?;
        let read = newest.read().clone()?;
        let number = newest.number() + 1;
        let version = Version::stacked(self.alloc, stable, read, write, number)?;
        Ok(Grant { tree, version })
    }
}
