//! A script's calls in order, as the slow program answers them.
use crate::drawn::asked::{Asked, Call};
use crate::drawn::lines::{Open, decision_of, image_of, push_call, push_counted, push_line};
use crate::drawn::past::Past;
use std::alloc::Global;
use std::test::Fail;
use test_fixtures::Failure;
use values::NoMemory;

/// What the slow program knows between two calls.
#[derive(Drop)]
pub(crate) struct Serial {
    pub(crate) past: Past,
    /// What each client has open.
    open: Vec<Option<Open>>,
    /// How many commits of each client were decided.
    pub(crate) counts: Vec<u64>,
    /// How many records were made since the last cut.
    pub(crate) kept: u64,
    /// How many records were handed out.
    pub(crate) handed: u64,
    failing: Option<Failure>,
    /// How many appends each device was to take, that of its header among them.
    appends: u64,
    /// The newest stored image and its generation.
    pub(crate) stored: Option<(u64, String)>,
    /// The lines so far.
    pub(crate) lines: String,
}

impl Serial {
    /// So many clients before their first call, and a store with this failure.
    pub(crate) fn new(
        alloc: Global,
        past: Past,
        clients: u64,
        failing: Option<Failure>,
    ) -> Result<Serial, NoMemory> {
        let (mut open, mut counts) = (Vec::new(alloc), Vec::new(alloc));
        for _ in 0..clients {
            open.push(None)?;
            counts.push(0)?;
        }
        Ok(Serial {
            past,
            open,
            counts,
            kept: 0,
            handed: 0,
            failing,
            appends: 1,
            stored: None,
            lines: String::new(alloc),
        })
    }

    /// A record more, of this client.
    fn count(&mut self, client: usize) {
        self.kept = self.kept.wrapping_add(1);
        if let Some(count) = self.counts.get_mut(client) {
            *count = count.wrapping_add(1);
        }
    }

    fn commit(&mut self, client: usize) -> Result<(), NoMemory> {
        let own = match self.open.get_mut(client) {
            Some(open) => open.take(),
            None => None,
        };
        let call = (client, Asked::Commit);
        let Some(own) = own else {
            return push_line(&mut self.lines, call, "NotOpen");
        };
        self.count(client);
        match self.past.commit(own.begin, own.effects)? {
            Some(reply) => push_counted(&mut self.lines, call, decision_of(reply)),
            None => Ok(()),
        }
    }

    fn checkpoint(&mut self, client: usize) -> Result<(), NoMemory> {
        let call = (client, Asked::Checkpoint);
        let generation = self.appends;
        self.appends = self.appends.wrapping_add(1);
        match self.failing {
            Some(Failure { device, turn, .. }) if turn == self.appends => {
                push_counted(&mut self.lines, call, ("DeviceFailed", device as u64))
            }
            Some(Failure { turn, .. }) if turn < self.appends => {
                push_line(&mut self.lines, call, "StoreFailed")
            }
            _ => {
                let image = image_of(self.past.alloc(), self.past.newest())?;
                self.stored = Some((generation, image));
                push_counted(&mut self.lines, call, ("Done", generation))
            }
        }
    }

    fn cut(&mut self, client: usize) -> Result<(), NoMemory> {
        let kept = self.kept;
        self.past.cut();
        self.handed = self.handed.wrapping_add(kept);
        self.kept = 0;
        push_counted(&mut self.lines, (client, Asked::Cut), ("Done", kept))
    }

    fn call(&mut self, (client, asked): Call) -> Result<(), NoMemory> {
        match asked {
            Asked::Commit => self.commit(client),
            Asked::Checkpoint => self.checkpoint(client),
            Asked::Cut => self.cut(client),
            _ => {
                let number = self.past.number();
                match self.open.get_mut(client) {
                    Some(open) => push_call(
                        &self.past,
                        &mut self.lines,
                        (client, asked),
                        (open, number),
                    ),
                    None => Ok(()),
                }
            }
        }
    }

    /// What is known after the calls.
    pub(crate) fn after(mut self, calls: &[Call]) -> Result<Serial, Fail> {
        for call in calls {
            self.call(*call)?;
        }
        Ok(self)
    }
}
