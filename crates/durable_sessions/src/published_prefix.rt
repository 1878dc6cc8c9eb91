//! A prefix of the published list, as what a journal has.
ghost use Rattle.std.specs.Prelude.{◌≡◌};
ghost use Rattle.durable_sessions.specs.Payloads.{IsLoggable};
ghost use Rattle.publishing.specs.Lists.{number_in};

use crate::opening_id::DurableOpening;
use group_commit::HistoryPrefix;
use publishing::SeenList;
use std::marker::{Model, PhantomData};

/// A prefix of an opening's published list, whose commits' payloads read as their entries. Contracts see its items.
#[derive(Drop)]
pub struct PublishedPrefix<O: DurableOpening> {
    list: SeenList,
    of: PhantomData<O>,
}

impl<O: DurableOpening> Model for PublishedPrefix<O> {
    ghost use Rattle.std.specs.Prelude.{◌≡◌, List};
    ghost use Rattle.publishing.specs.declared.item.Item.{Item};
    ghost use Rattle.durable_sessions.specs.Payloads.{IsLoggable};

    ghost Value = { List Item };

    ghost view = { λ t. t.list.list };

    ghost invariant = { λ t. (t.list.opening ≡ O.opened) × IsLoggable O.opened.manager O.table t.list.list };
}

impl<O: DurableOpening> PublishedPrefix<O> {
    /// The prefix that was seen.
    pub fn new(list: SeenList) -> PublishedPrefix<O>
        requires opening { list.opening ≡ O.opened }
        requires spelt { IsLoggable O.opened.manager O.table list.list }
        ensures { result ≡ list.list }
    {
        PublishedPrefix {
            list,
            of: PhantomData,
        }
    }

    /// The number of its newest commit.
    pub fn number(&self) -> u64
        ensures { result ≡ number_in O.opened.manager self.now }
    {
        self.list.number()
    }

    /// The list. Takes no memory.
    pub fn list(&self) -> SeenList
        ensures list { result.list ≡ self.now }
        ensures opening { result.opening ≡ O.opened }
        ensures spelt { IsLoggable O.opened.manager O.table self.now }
    {
        self.list.again()
    }
}

impl<O: DurableOpening> HistoryPrefix for PublishedPrefix<O> {
    ghost use Rattle.durable_sessions.specs.Payloads.{payloads_in};

    ghost payloads = { λ list. payloads_in O.opened.manager O.table list };

    fn again(&self) -> PublishedPrefix<O> {
        PublishedPrefix {
            list: self.list.again(),
            of: PhantomData,
        }
    }

    fn has_same_commits(&self, other: &PublishedPrefix<O>) -> bool {
        // Called for what its clauses tell.
        let _both = self.list.longer(&other.list);
        self.list.number() == other.list.number()
    }
}
