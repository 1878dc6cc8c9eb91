//! A transaction that asked to commit, as a history keeps it.
ghost use Rattle.std.specs.Prelude.{◌≡◌};

use crate::write::{CommitReply, Write, WriteReply};
use std::marker::Model;

/// One transaction that asked to commit: its client, how many commits its snapshot has, its writes with their replies,
/// and the reply to its commit.
#[derive(Drop)]
pub struct Record {
    client: u32,
    begin: u64,
    writes: Vec<(Write, WriteReply)>,
    reply: CommitReply,
}

impl Model for Record {
    ghost use Rattle.model.specs.History.{Record as Asked};

    ghost Value = { Asked };

    ghost view = { λ r. record { client = r.client; begin = r.begin; writes = r.writes.items; reply = r.reply } };
}

impl Record {
    /// A record of a client that began at this number of commits, with the replies to its writes and to its commit.
    pub fn new(
        client: u32,
        begin: u64,
        writes: Vec<(Write, WriteReply)>,
        reply: CommitReply,
    ) -> Record
        ensures { result
            ≡ record { client = client; begin = begin; writes = writes.items; reply = reply } }
    {
        Record {
            client,
            begin,
            writes,
            reply,
        }
    }

    /// The client's number.
    pub fn client(&self) -> u32
        ensures { result ≡ self.now.client }
    {
        self.client
    }

    /// How many commits its snapshot has.
    pub fn begin(&self) -> u64
        ensures { result ≡ self.now.begin }
    {
        self.begin
    }

    /// Its writes in order, each with the reply to it.
    pub fn writes(&self) -> &[(Write, WriteReply)]
        ensures { result.now ≡ self.now.writes }
    {
        self.writes.as_slice()
    }

    /// The reply to its commit.
    pub fn reply(&self) -> CommitReply
        ensures { result ≡ self.now.reply }
    {
        self.reply
    }
}
