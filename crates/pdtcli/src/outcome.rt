//! What a run leaves: the reply lines of its calls, the manager, how many commits each client was answered, how many
//! records were handed out, and the store.
ghost use Rattle.std.specs.Prelude.{◌≡◌};

use crate::reply::ReplyLine;
use manager::Manager;
use std::marker::Model;
use values::Text;

/// What a run leaves. The store is beside the rest, which contracts see as one value.
#[derive(Drop)]
pub struct Outcome<S: Drop> {
    /// The reply lines, the manager and what was counted.
    pub left: Left,
    /// The store, as the checkpoints of the run left it.
    pub store: S,
}

/// The reply lines of a run in order, with the manager and what was counted.
#[derive(Drop)]
pub struct Left {
    /// The clients' names, in order of first appearance.
    clients: Vec<Text>,
    lines: Vec<ReplyLine>,
    manager: Manager,
    /// For each client, how many of its commits were decided.
    counts: Vec<u64>,
    /// How many records the cuts of the run handed out.
    handed: u64,
}

impl Model for Left {
    ghost use Rattle.pdtcli.specs.Outcome.{Left as WhatIsLeft};

    ghost Value = { WhatIsLeft };

    ghost view = { λ o. record { clients = o.clients.items; lines = o.lines.items; manager = o.manager; counts = o.counts.items; handed = o.handed } };
}

impl Left {
    /// What is left, of these parts. Takes no memory.
    pub(crate) fn new(
        clients: Vec<Text>,
        lines: Vec<ReplyLine>,
        manager: Manager,
        counts: Vec<u64>,
        handed: u64,
    ) -> Left
        ensures { result
            ≡ record { clients = clients.items; lines = lines.items; manager = manager; counts = counts.items; handed = handed } }
    {
        Left {
            clients,
            lines,
            manager,
            counts,
            handed,
        }
    }

    /// The clients' names, in order of first appearance.
    pub fn clients(&self) -> &[Text]
        ensures { result.now ≡ self.now.clients }
    {
        self.clients.as_slice()
    }

    /// The reply lines, one for each call, in the order of the calls.
    pub fn lines(&self) -> &[ReplyLine]
        ensures { result.now ≡ self.now.lines }
    {
        self.lines.as_slice()
    }

    /// The manager as the run left it.
    pub fn manager(&self) -> &Manager
        ensures { result.now ≡ self.now.manager }
    {
        &self.manager
    }

    /// How many records the cuts of the run handed out, those of the manager that was handed in among them.
    pub fn handed(&self) -> u64
        ensures { result ≡ self.now.handed }
    {
        self.handed
    }

    /// For each client, how many of its commits were decided: Committed, Conflict, TooOld or Full.
    pub fn counts(&self) -> &[u64]
        ensures { result.now ≡ self.now.counts }
    {
        self.counts.as_slice()
    }
}
