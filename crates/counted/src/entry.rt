//! The entries of a tree, and what each adds to the rows below it.
ghost use Rattle.std.specs.Prelude.{◌≡◌, IfOk};
ghost use Rattle.model.specs.Entries.{is_delete};
ghost use Rattle.counted.specs.Changes.{change_of, kept_change};
ghost use Rattle.counted.specs.Leads.{lead_of};
ghost use Rattle.counted.specs.Sums.{weight_of};

use model::{Change, Entry};
use std::alloc::{AllocError, Global};
use std::marker::Model;
use std::sync::Arc;
use values::{Key, NoMemory, Row, SharedRow, Value, ValueRef};

/// An entry. A number or a truth that it sets is in it; a row that it inserts, the key of one that it deletes and a text
/// that it sets are shared: its copies, and those of it at other SIDs, own them together.
#[derive(Drop)]
pub struct SharedEntry {
    sid: u64,
    kept: Kept,
}

/// How a change is kept.
#[derive(Drop)]
pub(crate) enum Kept {
    /// A modify of the column by a number.
    Number(usize, i64),
    /// A modify of the column by a truth.
    Truth(usize, bool),
    /// An insert of the row, whose values are shared.
    Inserted(SharedRow),
    /// A delete of the row of the key.
    Deleted(Arc<Key, Global>),
    /// A modify of the column by any other value.
    Modified(usize, Arc<Value, Global>),
}

/// What an entry does, lent.
#[derive(Clone, Copy)]
pub enum ChangeRef<'a> {
    /// The row stands before the base row of the place.
    Ins(&'a SharedRow),
    /// The base row of the place, which has this key, is gone.
    Del(&'a Key),
    /// The cell of this column of the base row of the place has this value.
    Mod(usize, ValueRef<'a>),
}

/// What is kept of an entry where it is the first of a child: enough to place it by its SID, with no look at its change.
#[derive(Clone, Copy)]
pub struct Lead {
    pub sid: u64,
    pub weight: i64,
}

impl Model for SharedEntry {
    ghost use Rattle.model.specs.declared.entry.Entry.{Entry};

    ghost Value = { Entry };

    ghost use Rattle.counted.specs.Changes.{kept_change};

    ghost view = { λ e. record { sid = e.sid; change = kept_change e.kept } };
}

impl SharedEntry {
    /// The entry, whose change nobody shares yet but for the values of a row.
    ///
    /// # Errors
    ///
    /// `AllocError` where memory for what its copies share is refused: the entry is dropped.
    pub fn new(alloc: Global, entry: Entry) -> Result<SharedEntry, AllocError>
        ensures { IfOk result (λ shared. shared ≡ entry) }
    {
        Ok(SharedEntry {
            sid: entry.sid,
            kept: keep(alloc, entry.change)?,
        })
    }

    /// The position in the base at which it stands.
    #[inline(always)]
    pub fn sid(&self) -> u64
        ensures { result ≡ self.now.sid }
    {
        self.sid
    }

    /// What it does there.
    #[inline(always)]
    pub fn change(&self) -> ChangeRef<'_>
        ensures { change_of result ≡ self.now.change }
    {
        match &self.kept {
            Kept::Number(col, number) => ChangeRef::Mod(*col, ValueRef::Int(*number)),
            Kept::Truth(col, truth) => ChangeRef::Mod(*col, ValueRef::Bool(*truth)),
            Kept::Inserted(row) => ChangeRef::Ins(row),
            Kept::Deleted(key) => ChangeRef::Del(key),
            Kept::Modified(col, value) => ChangeRef::Mod(*col, Value::as_ref(value)),
        }
    }

    /// One for an insert, minus one for a delete, and nothing for a modify. It reads no change.
    #[inline(always)]
    pub(crate) fn weight(&self) -> i64
        ensures { result ≡ weight_of self.now.change }
    {
        match &self.kept {
            Kept::Number(..) | Kept::Truth(..) | Kept::Modified(..) => 0,
            Kept::Inserted(_) => 1,
            Kept::Deleted(_) => -1,
        }
    }

    /// Whether it deletes the base row of its place. It reads no change.
    #[inline(always)]
    pub fn is_delete(&self) -> bool
        ensures { result ≡ is_delete self.now.change }
    {
        self.weight() < 0
    }

    /// What places it by its SID, and tells what its change adds. It reads no change.
    #[inline(always)]
    pub fn lead(&self) -> Lead
        ensures { result ≡ lead_of self.now }
    {
        Lead {
            sid: self.sid,
            weight: self.weight(),
        }
    }

    /// The same entry, which shares its change. It copies no row.
    ///
    /// # Errors
    ///
    /// `AllocError` where the change has too many owners.
    #[inline(always)]
    pub fn copy(&self) -> Result<SharedEntry, AllocError>
        ensures { IfOk result (λ copied. copied ≡ self.now) }
    {
        self.with_sid(self.sid)
    }

    /// The entry at another SID, which shares its change. It copies no row.
    ///
    /// # Errors
    ///
    /// `AllocError` where the change has too many owners.
    #[inline(always)]
    pub fn with_sid(&self, sid: u64) -> Result<SharedEntry, AllocError>
        ensures { IfOk result (λ moved. moved ≡ record self.now { sid = sid }) }
    {
        let kept = match &self.kept {
            Kept::Number(col, number) => Kept::Number(*col, *number),
            Kept::Truth(col, truth) => Kept::Truth(*col, *truth),
            Kept::Inserted(row) => Kept::Inserted(row_again(row)?),
            Kept::Deleted(key) => Kept::Deleted(Arc::try_clone(key)?),
            Kept::Modified(col, value) => Kept::Modified(*col, Arc::try_clone(value)?),
        };
        Ok(SharedEntry { sid, kept })
    }

    /// Moves it to another SID.
    pub fn move_to(&mut self, sid: u64)
        ensures { self.new ≡ record self.old { sid = sid } }
    {
        self.sid = sid;
    }
}

/// The same row, which shares its values.
#[inline(always)]
fn row_again(row: &SharedRow) -> Result<SharedRow, AllocError>
    ensures { IfOk result (λ again. again ≡ row.now) }
{
    match row.copy() {
        Ok(again) => Ok(again),
        Err(NoMemory) => Err(AllocError),
    }
}

/// The row, whose values are shared from now on.
fn shared(row: Row) -> Result<SharedRow, AllocError>
    ensures { IfOk result (λ shared. shared ≡ row) }
{
    match row.into_shared() {
        Ok(shared) => Ok(shared),
        Err(NoMemory) => Err(AllocError),
    }
}

/// How a change that nobody shares yet is kept.
fn keep(alloc: Global, change: Change) -> Result<Kept, AllocError>
    ensures { IfOk result (λ kept. kept_change kept ≡ change) }
{
    match change {
        Change::Ins(row) => Ok(Kept::Inserted(shared(row)?)),
        Change::Del(key) => Ok(Kept::Deleted(Arc::new(alloc, key)?)),
        Change::Mod(col, Value::Int(number)) => Ok(Kept::Number(col, number)),
        Change::Mod(col, Value::Bool(truth)) => Ok(Kept::Truth(col, truth)),
        Change::Mod(col, text) => Ok(Kept::Modified(col, Arc::new(alloc, text)?)),
    }
}
