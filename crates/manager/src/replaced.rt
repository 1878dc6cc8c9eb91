//! What a commit lets go of, handed out: whoever installs it under a lock frees that without the lock.
ghost use Rattle.std.specs.Prelude.{◌≡◌, ◌↔◌, ◌∷◌, ◌++◌, [], Some, false, cond, length, nat_lt, slice_get, IfErr, IfOk, IfSome, IsOk};
ghost use Rattle.circular_buffer.specs.Buffer.{buffer, keep_last};

use crate::commit::{Grant, Prepared};
use crate::manager::Manager;
use circular_buffer::HeapCircularBuffer;
use delta::DeltaTree;
use model::{CommitReply, Record};
use std::collections::LinkedList;
use std::marker::Model;
use std::mem;
use txn::{Rest, Txn, Version};

/// What a commit has put others into the place of. It is freed where this is dropped.
#[derive(Drop)]
pub struct Replaced {
    /// The oldest of the trees that were kept, where as many are as may be.
    tree: Option<DeltaTree>,
    /// The version that was the newest one, where another is.
    version: Option<Version>,
}

impl Model for Replaced {
    ghost use Rattle.manager.specs.Replaced.{Replaced as Leaving};

    ghost Value = { Leaving };

    ghost view = { λ r. record { tree = r.tree; version = r.version } };
}

impl Replaced {
    ghost use Rattle.manager.specs.Replaced.{none};

    /// Nothing. Takes no memory.
    pub fn none() -> Replaced
        ensures { result ≡ none }
    {
        Replaced {
            tree: None,
            version: None,
        }
    }
}

/// What a commit lets go of: what it replaces, and what its transaction has that no history keeps. It is freed where this is dropped.
#[derive(Drop)]
pub struct Released {
    /// The transaction's record, where the history only counts it.
    entry: LinkedList<Record>,
    rest: Rest,
    replaced: Replaced,
}

impl Model for Released {
    ghost use Rattle.txn.specs.Version.{table_version};
    ghost use Rattle.manager.specs.Replaced.{Released as Leaving};

    ghost Value = { Leaving };

    ghost view = { λ r. record { entry = r.entry; begun = table_version r.rest.version; own = r.rest.tree; replaced = r.replaced } };
}

impl Released {
    ghost use Rattle.txn.specs.Version.{table_version};

    pub(crate) fn new(entry: LinkedList<Record>, rest: Rest, replaced: Replaced) -> Released
        ensures { result ≡ record { entry = entry; begun = table_version rest.version; own = rest.tree; replaced = replaced } }
    {
        Released {
            entry,
            rest,
            replaced,
        }
    }
}

/// Makes what was granted the newest version, and its tree the last of those that are kept.
pub(crate) fn replace(
    newest: &mut Version,
    kept: &mut HeapCircularBuffer<DeltaTree>,
    grant: Grant,
) -> Replaced
    ensures newest { newest.new ≡ grant.version }
    ensures layers { newest.new.layers ≡ grant.layers }
    ensures kept { kept.new ≡ buffer (keep_last kept.old.capacity (kept.old.items ++ grant.tree ∷ [])) kept.old.capacity }
    ensures tree { result.tree
        ≡ cond (nat_lt (length kept.old.items) kept.old.capacity) None (slice_get (kept.old.items ++ grant.tree ∷ []) 0) }
    ensures version { result.version ≡ Some newest.old }
{
    let Grant { tree, version } = grant;
    Replaced {
        tree: kept.push_back(tree),
        version: Some(mem::replace(newest, version)),
    }
}

impl Manager {
    ghost use Rattle.manager.specs.Managed.{IsDecided, IsOwn};
    ghost use Rattle.manager.specs.Prepared.{IsPrepared};
    ghost use Rattle.manager.specs.Replaced.{replaced_by};

    /// Does what `install` does where the history only counts its records, and frees nothing: the transaction is lent, and what is
    /// replaced comes out. Takes no memory.
    ///
    /// # Errors
    ///
    /// What was prepared, where the history keeps its records, so that it wants the transaction itself: nothing changes.
    pub fn install_counted(
        &mut self,
        txn: &Txn,
        prepared: Prepared,
    ) -> Result<(CommitReply, Replaced), Prepared>
        requires own { IsOwn self.old txn.now }
        requires prepared { IsPrepared self.old txn.now prepared }
        ensures counted { IsOk result ↔ (self.old.keeps ≡ false) }
        ensures decided { IfOk result (λ r. IsDecided self.old txn.now r.0 self.new) }

        // The version that was prepared is the newest one.
        ensures layers { IfOk result (λ _. IfSome prepared.granted (λ granted. self.new.layers ≡ granted.layers)) }

        // All that was let go of is handed out.
        ensures replaced { IfOk result (λ r. r.1 ≡ replaced_by self.old prepared.granted) }
        ensures err { IfErr result (λ back. (back ≡ prepared) × (self.new ≡ self.old)) }
    {
        if self.history.keeps() {
            return Err(prepared);
        }
        let _begun = txn.begin();
        let Prepared { reply, grant } = prepared;
        self.history.count(txn, reply);
        self.made += 1;
        let Some(grant) = grant else {
            return Ok((reply, Replaced::none()));
        };
        let replaced = replace(&mut self.newest, &mut self.kept, grant);
        Ok((reply, replaced))
    }
}
