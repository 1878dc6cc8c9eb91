//! What a session writes and reads: the calls of its transaction.
ghost use Rattle.std.specs.Prelude.{◌≡◌, IfOk, IfSome, IsErr, IsOkAnd, IsOkUnless, IsTrue, MatchOption, OnErr, Err, drop, is_some, length, slice_get, take};
ghost use Rattle.std.specs.Option.{option_map};
ghost use Rattle.values.specs.Shape.{cell_fault, key_fault, or_fault, row_fault};
ghost use Rattle.model.specs.Table.{rank, row_at, rows_of};
ghost use Rattle.model.specs.Writes.{write_fits_schema};
ghost use Rattle.model.specs.declared.write.Write.TheVariants as asked;
ghost use Rattle.merge.specs.View.{row_of};
ghost use Rattle.txn.specs.Txn.{image_of};
ghost use Rattle.shared.specs.Sessions.{HasWritten};
ghost use Rattle.shared.specs.declared.fault.SessionFault.TheVariants as fault;

use crate::fault::{NotOpen, SessionFault};
use crate::session::Session;
use merge::{MergeScan, RowView};
use model::{Write, WriteReply};
use publishing::Opening;
use values::{Key, Row, Value};

impl<O: Opening> Session<O> {
    /// Inserts a row, as `Txn::insert` does.
    ///
    /// # Errors
    ///
    /// `NotOpen` where no transaction is open, `Shape` with the row's first fault, and `NoMemory` where a growth is refused:
    /// nothing changes.
    pub fn insert(&mut self, row: Row) -> Result<WriteReply, SessionFault>
        ensures ok { IfOk result (λ reply. HasWritten self.old (asked.Insert row) reply self.new) }
        ensures fault { MatchOption self.old.txn (result ≡ Err fault.NotOpen)
            (λ txn. MatchOption (row_fault txn.schema row) (IsOkUnless result SessionFault.NoMemory)
            (λ found. result ≡ Err (fault.Shape found))) }
        ensures err { OnErr result (self.new ≡ self.old) }
    {
        match &mut self.txn {
            Some(txn) => Ok(txn.insert(row)?),
            None => Err(SessionFault::NotOpen),
        }
    }

    /// Deletes the row of a key, as `Txn::delete` does.
    ///
    /// # Errors
    ///
    /// `NotOpen` where no transaction is open, `Shape` with the key's first fault, and `NoMemory` where a growth is refused:
    /// nothing changes.
    pub fn delete(&mut self, key: &Key) -> Result<WriteReply, SessionFault>
        ensures ok { IfOk result (λ reply. HasWritten self.old (asked.Delete key.now) reply self.new) }
        ensures fault { MatchOption self.old.txn (result ≡ Err fault.NotOpen)
            (λ txn. MatchOption (key_fault txn.schema key.now) (IsOkUnless result SessionFault.NoMemory)
            (λ found. result ≡ Err (fault.Shape found))) }
        ensures err { OnErr result (self.new ≡ self.old) }
    {
        match &mut self.txn {
            Some(txn) => Ok(txn.delete(key)?),
            None => Err(SessionFault::NotOpen),
        }
    }

    /// Sets a cell of the row of a key, as `Txn::set` does.
    ///
    /// # Errors
    ///
    /// `NotOpen` where no transaction is open, `Shape` with the first fault of the key, or else of the cell, and `NoMemory`
    /// where a growth is refused: nothing changes.
    pub fn set(&mut self, key: &Key, col: usize, value: Value) -> Result<WriteReply, SessionFault>
        ensures ok { IfOk result (λ reply. HasWritten self.old (asked.Set key.now col value) reply self.new) }
        ensures fault { MatchOption self.old.txn (result ≡ Err fault.NotOpen)
            (λ txn. MatchOption (or_fault (key_fault txn.schema key.now) (cell_fault txn.schema col value))
            (IsOkUnless result SessionFault.NoMemory) (λ found. result ≡ Err (fault.Shape found))) }
        ensures err { OnErr result (self.new ≡ self.old) }
    {
        match &mut self.txn {
            Some(txn) => Ok(txn.set(key, col, value)?),
            None => Err(SessionFault::NotOpen),
        }
    }

    /// Answers a write that fits the schema, as `Txn::write` does: for a caller that has tested the shape.
    ///
    /// # Errors
    ///
    /// `NotOpen` where no transaction is open, and `NoMemory` where a growth is refused: nothing changes.
    pub fn write(&mut self, write: Write) -> Result<WriteReply, SessionFault>
        requires { IfSome self.old.txn (λ txn. IsTrue (write_fits_schema txn.schema write)) }
        ensures ok { IfOk result (λ reply. HasWritten self.old write reply self.new) }
        ensures fault { MatchOption self.old.txn (result ≡ Err fault.NotOpen) (λ txn. IsOkUnless result SessionFault.NoMemory) }
        ensures err { OnErr result (self.new ≡ self.old) }
    {
        match &mut self.txn {
            Some(txn) => Ok(txn.write(write)?),
            None => Err(SessionFault::NotOpen),
        }
    }

    /// The row of a key in the open transaction, lent. Takes no memory.
    ///
    /// # Errors
    ///
    /// `NotOpen` where no transaction is open.
    pub fn get(&self, key: &Key) -> Result<Option<RowView<'_>>, NotOpen>
        ensures { MatchOption self.now.txn (IsErr result)
            (λ txn. IsOkAnd result (λ found. option_map row_of found ≡ row_at (image_of txn) key.now)) }
    {
        Ok(self.txn()?.get(key))
    }

    /// The row at a position, lent, or none past the end. Takes no memory.
    ///
    /// # Errors
    ///
    /// `NotOpen` where no transaction is open.
    pub fn row_at(&self, rid: u64) -> Result<Option<RowView<'_>>, NotOpen>
        ensures { MatchOption self.now.txn (IsErr result)
            (λ txn. IsOkAnd result (λ found. option_map row_of found ≡ slice_get (rows_of (image_of txn)) rid)) }
    {
        Ok(self.txn()?.row_at(rid))
    }

    /// How many rows have a key below this one, and whether there is a row of the key. Takes no memory.
    ///
    /// # Errors
    ///
    /// `NotOpen` where no transaction is open.
    pub fn rank(&self, key: &Key) -> Result<(u64, bool), NotOpen>
        ensures { MatchOption self.now.txn (IsErr result) (λ txn. IsOkAnd result
            (λ found. (found.0 ≡ rank key.now (image_of txn)) × (found.1 ≡ is_some (row_at (image_of txn) key.now)))) }
    {
        Ok(self.txn()?.rank(key))
    }

    /// The rows from one position up to another, and without that, lent one by one. Takes no memory.
    ///
    /// # Errors
    ///
    /// `NotOpen` where no transaction is open.
    pub fn scan(&self, from: u64, to: u64) -> Result<MergeScan<'_>, NotOpen>
        ensures { MatchOption self.now.txn (IsErr result)
            (λ txn. IsOkAnd result (λ found. found ≡ drop from (take to (rows_of (image_of txn))))) }
    {
        Ok(self.txn()?.scan(from, to))
    }

    /// How many rows there are. Takes no memory.
    ///
    /// # Errors
    ///
    /// `NotOpen` where no transaction is open.
    pub fn len(&self) -> Result<u64, NotOpen>
        ensures { MatchOption self.now.txn (IsErr result) (λ txn. IsOkAnd result (λ found. found ≡ length (image_of txn))) }
    {
        Ok(self.txn()?.len())
    }
}
