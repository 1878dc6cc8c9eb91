//! One client's calls on a thread of its own, beside what it was told.
use crate::drawn::asked::{Asked, Call};
use crate::drawn::lines::{Open, decision_of, push_call, push_counted, push_line};
use crate::drawn::past::Past;
use model::CommitReply;
use std::alloc::Global;
use std::{mem, slice};
use values::NoMemory;

/// What is known of a client between two calls.
#[derive(Drop)]
pub(crate) struct Seat<'a> {
    pub(crate) past: &'a Past,
    /// What the client and those after it are told from here on.
    pub(crate) told: &'a str,
    /// The begins and replies of its records that are left.
    pub(crate) decided: slice::Iter<'a, (u64, CommitReply)>,
    /// The generations that are left.
    pub(crate) generations: slice::Iter<'a, u32>,
    /// At least so many commits does its next transaction see.
    pub(crate) seen: u64,
    /// What the client may have open: one for each snapshot with which all that it was told agrees. With none open it is one.
    pub(crate) open: Vec<Option<Open>>,
}

impl<'a> Seat<'a> {
    /// Whether this is told next.
    fn hears(&mut self, text: &str) -> bool {
        match self.told.strip_prefix(text) {
            Some(rest) => {
                self.told = rest;
                true
            }
            None => false,
        }
    }

    fn has_open(&self) -> bool {
        self.open.iter().all(|own| own.is_some())
    }

    /// Goes on to the next client, which has these records.
    pub(crate) fn turn_to(&mut self, decided: &'a [(u64, CommitReply)]) -> Result<(), NoMemory> {
        self.decided = decided.iter();
        self.seen = 0;
        self.close(self.past.alloc())
    }

    fn close(&mut self, alloc: Global) -> Result<(), NoMemory> {
        self.open = Vec::new(alloc);
        self.open.push(None)?;
        Ok(())
    }

    /// A transaction at each snapshot that it may have: that of the next record where it asks to commit, and else none
    /// newer.
    fn begin(&mut self, call: Call, later: &[Call]) -> Result<bool, NoMemory> {
        let alloc = self.past.alloc();
        let newest = match self.decided.clone()?.next() {
            Some((begin, _)) => *begin,
            None => self.past.number(),
        };
        let oldest = if asks_to_commit(call.0, later) {
            newest.max(self.seen)
        } else {
            self.seen
        };
        self.open = Vec::new(alloc);
        for number in oldest..newest.wrapping_add(1) {
            self.open.push(Some(Open::new(alloc, number)))?;
        }
        let mut text = String::new(alloc);
        push_line(&mut text, call, "Begun")?;
        Ok(self.hears(text.as_str()))
    }

    fn commit(&mut self, call: Call) -> Result<bool, NoMemory> {
        let alloc = self.past.alloc();
        let Some((begin, reply)) = self.decided.next() else {
            return Ok(false);
        };
        let agrees = has_begun(self.open.as_slice(), *begin);
        let (word, number) = decision_of(*reply);
        self.seen = number;
        self.close(alloc)?;
        let mut text = String::new(alloc);
        push_counted(&mut text, call, (word, number))?;
        Ok(self.hears(text.as_str()) && agrees)
    }

    fn checkpoint(&mut self, call: Call) -> Result<bool, NoMemory> {
        let Some(generation) = self.generations.next() else {
            return Ok(false);
        };
        let mut text = String::new(self.past.alloc());
        push_counted(&mut text, call, ("Done", u64::from(*generation)))?;
        Ok(self.hears(text.as_str()))
    }

    /// Keeps what agrees with what is told of the call.
    fn plain(&mut self, call: Call) -> Result<bool, NoMemory> {
        let alloc = self.past.alloc();
        let (mut kept, mut heard) = (Vec::new(alloc), String::new(alloc));
        let before = mem::replace(&mut self.open, Vec::new(alloc));
        for mut own in before {
            let mut text = String::new(alloc);
            push_call(self.past, &mut text, call, (&mut own, 0))?;
            if self.told.starts_with(text.as_str()) {
                kept.push(own)?;
                heard = text;
            }
        }
        self.open = kept;
        Ok(self.hears(heard.as_str()) && !self.open.is_empty())
    }

    /// Whether the call, with these from there on, was answered as is due.
    pub(crate) fn call(&mut self, call: Call, later: &[Call]) -> Result<bool, NoMemory> {
        match call.1 {
            Asked::Begin if !self.has_open() => self.begin(call, later),
            Asked::Commit if self.has_open() => self.commit(call),
            Asked::Checkpoint => self.checkpoint(call),
            Asked::Abort if self.has_open() => {
                let agrees = self.plain(call)?;
                self.close(self.past.alloc())?;
                Ok(agrees)
            }
            _ => self.plain(call),
        }
    }
}

/// Whether one of them began at this number.
fn has_begun(open: &[Option<Open>], begin: u64) -> bool {
    for own in open {
        if let Some(own) = own {
            if own.begin == begin {
                return true;
            }
        }
    }
    false
}

/// Whether a client's transaction asks to commit.
fn asks_to_commit(client: usize, later: &[Call]) -> bool {
    for (other, asked) in later {
        match asked {
            Asked::Commit if *other == client => return true,
            Asked::Abort if *other == client => return false,
            _ => {}
        }
    }
    false
}
