//! A client's writes over a version of the table, kept as a delta tree (Héman et al. 2010, "Trans-PDT").
ghost use Rattle.std.specs.Prelude.{◌≡◌, ◌+◌, ◌≤◌, [], ◌∷◌, false, IsTrue, IfOk, OnOk, OnErr, IsOkUnless, MatchOption, Err, length};
ghost use Rattle.std.specs.Vec.{vec_len, vec_capacity};
ghost use Rattle.values.specs.Shape.{row_fault, key_fault, cell_fault, or_fault};
ghost use Rattle.values.specs.declared.limits.TheConstants.{MAX_ROWS};
ghost use Rattle.model.specs.declared.write.Write.TheVariants as asked;
ghost use Rattle.model.specs.Writes.{write_fits_schema};
ghost use Rattle.model.specs.Table.{rows_of};
ghost use Rattle.delta.specs.Search.{insert_cmp, past_cmp, stands_before, IsSplit};
ghost use Rattle.txn.specs.Edit.{is_inserted, is_kept, is_there};
ghost use Rattle.merge.specs.Image.{image_rows, image_table};
ghost use Rattle.txn.specs.declared.fault.WriteFault.TheVariants as write_fault;

use crate::fault::WriteFault;
use crate::mark::Mark;
use crate::parts::{Parts, Rest};
use crate::slot::RecordSlot;
use crate::version::Version;
use crate::writes::{Found, FoundRow, check_write, edit, with_shared_row};
use delta::{DeltaTree, Sought};
use merge::Layers;
use model::{CommitReply, Record, Write, WriteReply, is_done, key_of_write, reply_where};
use std::alloc::Global;
use std::collections::LinkedList;
use std::marker::Model;
use values::{Key, NoMemory, Row, Schema, Value};

/// A client's writes over a snapshot of the table. It ends by a commit or by `abort`: it has no drop.
pub struct Txn {
    client: u32,
    pub(crate) version: Version,
    row_limit: u64,
    /// The canonical entries of the writes' effects over the snapshot.
    pub(crate) tree: DeltaTree,
    /// Each with the reply that was due.
    writes: Vec<(Write, WriteReply)>,
    /// Where its record will stand, should it commit.
    slot: RecordSlot,
}

impl Model for Txn {
    ghost use Rattle.std.specs.Prelude.{◌≡◌};
    ghost use Rattle.txn.specs.Txn.{Transaction, transaction_at, IsTransaction, tree_of};
    ghost use Rattle.txn.specs.Version.{table_version};

    ghost Value = { Transaction };

    ghost view = { λ t. transaction_at (table_version t.version) t.row_limit t.client t.writes.items };

    ghost invariant = { λ t. IsTransaction (transaction_at (table_version t.version) t.row_limit t.client t.writes.items)
        × (t.tree ≡ tree_of (transaction_at (table_version t.version) t.row_limit t.client t.writes.items)) };
}

impl Txn {
    ghost use Rattle.txn.specs.Version.{lower_table, table_version};
    ghost use Rattle.txn.specs.Txn.{transaction_at, entries_of, tree_of, image_of, IsTransaction, IsAnswered, IsMet, IsFound};
    ghost use Rattle.txn.specs.Marks.{mark_of, with_first, IsMark};

    /// A transaction over the version, with no writes.
    ///
    /// # Errors
    ///
    /// `NoMemory` where a growth is refused.
    pub fn open(
        alloc: Global,
        version: Version,
        client: u32,
        row_limit: u64,
    ) -> Result<Txn, NoMemory>
        requires within { length (lower_table version.layers) ≤ row_limit }
        requires limited { row_limit ≤ MAX_ROWS }
        ensures { IfOk result (λ txn. txn ≡ transaction_at (table_version version) row_limit client []) }
    {
        let key_cols = version.schema().key_cols();
        Ok(Txn {
            client,
            version,
            row_limit,
            tree: DeltaTree::new(alloc, key_cols),
            writes: Vec::new(alloc),
            slot: RecordSlot::new(alloc)?,
        })
    }

    /// The columns of the table.
    pub fn schema(&self) -> &Schema
        ensures { result.now ≡ self.now.schema }
    {
        self.version.schema()
    }

    /// The client's number.
    pub fn client(&self) -> u32
        ensures { result ≡ self.now.client }
    {
        self.client
    }

    /// How many commits its version has.
    pub fn begin(&self) -> u64
        ensures number { result ≡ self.now.begin }
        ensures lawful { IsTransaction self.now }
    {
        self.version.number()
    }

    /// The entries of the writes' effects over the version's table.
    pub fn tree(&self) -> &DeltaTree
        ensures { result.now ≡ tree_of self.now }
    {
        &self.tree
    }

    /// The writes so far, each with the reply that was due.
    pub fn writes(&self) -> &[(Write, WriteReply)]
        ensures writes { result.now ≡ self.now.writes }
        ensures lawful { IsTransaction self.now }
    {
        self.writes.as_slice()
    }

    /// What it comes to, for a commit. Takes no memory.
    pub fn into_parts(self) -> Parts
        ensures client { result.client ≡ self.client }
        ensures begin { result.begin ≡ self.begin }
        ensures tree { result.tree ≡ tree_of self }
        ensures writes { result.writes.items ≡ self.writes }
        ensures lawful { IsTransaction self }
    {
        let Txn {
            client,
            version,
            row_limit: _,
            tree,
            writes,
            slot: _slot,
        } = self;
        Parts {
            client,
            begin: version.number(),
            tree,
            writes,
        }
    }

    /// Its record, with the reply to its commit, in the slot that was made when it began. Takes no memory.
    pub fn into_record(self, reply: CommitReply) -> LinkedList<Record>
        ensures entry { result ≡ record { client = self.client; begin = self.begin; writes = self.writes; reply = reply } ∷ [] }
        ensures lawful { IsTransaction self }
    {
        let (entry, _rest) = self.split(reply);
        entry
    }

    /// Its record, as `into_record` gives it, and the rest. Takes no memory, and frees none.
    pub fn split(self, reply: CommitReply) -> (LinkedList<Record>, Rest)
        ensures entry { result.0 ≡ record { client = self.client; begin = self.begin; writes = self.writes; reply = reply } ∷ [] }
        ensures version { table_version result.1.version ≡ record { schema = self.schema; table = self.table; number = self.begin } }
        ensures tree { result.1.tree ≡ tree_of self }
        ensures lawful { IsTransaction self }
    {
        let Txn {
            client,
            version,
            row_limit: _,
            tree,
            writes,
            slot,
        } = self;
        let entry = slot.with(Record::new(client, version.number(), writes, reply));
        (entry, Rest { version, tree })
    }

    /// Inserts a row.
    ///
    /// # Errors
    ///
    /// `Shape` with the row's first fault, and `NoMemory` where a growth is refused: nothing changes.
    pub fn insert(&mut self, row: Row) -> Result<WriteReply, WriteFault>
        ensures ok { IfOk result (λ reply. IsAnswered self.old (asked.Insert row) reply self.new) }
        ensures fault { MatchOption (row_fault self.old.schema row) (IsOkUnless result WriteFault.NoMemory)
            (λ fault. result ≡ Err (write_fault.Shape fault)) }
        ensures err { OnErr result (self.new ≡ self.old) }
    {
        self.schema().check_row(&row)?;
        Ok(self.write(Write::Insert(row))?)
    }

    /// Deletes the row of a key.
    ///
    /// # Errors
    ///
    /// `Shape` with the key's first fault, and `NoMemory` where a growth is refused: nothing changes.
    pub fn delete(&mut self, key: &Key) -> Result<WriteReply, WriteFault>
        ensures ok { IfOk result (λ reply. IsAnswered self.old (asked.Delete key.now) reply self.new) }
        ensures fault { MatchOption (key_fault self.old.schema key.now) (IsOkUnless result WriteFault.NoMemory)
            (λ fault. result ≡ Err (write_fault.Shape fault)) }
        ensures err { OnErr result (self.new ≡ self.old) }
    {
        self.schema().check_key(key)?;
        Ok(self.write(Write::Delete(key.copy()?))?)
    }

    /// Sets a cell of the row of a key.
    ///
    /// # Errors
    ///
    /// `Shape` with the first fault of the key, or else of the cell, and `NoMemory` where a growth is refused: nothing
    /// changes.
    pub fn set(&mut self, key: &Key, col: usize, value: Value) -> Result<WriteReply, WriteFault>
        ensures ok { IfOk result (λ reply. IsAnswered self.old (asked.Set key.now col value) reply self.new) }
        ensures fault { MatchOption (or_fault (key_fault self.old.schema key.now) (cell_fault self.old.schema col value))
            (IsOkUnless result WriteFault.NoMemory) (λ fault. result ≡ Err (write_fault.Shape fault)) }
        ensures err { OnErr result (self.new ≡ self.old) }
    {
        self.schema().check_key(key)?;
        self.schema().check_cell(col, &value)?;
        Ok(self.write(Write::Set(key.copy()?, col, value))?)
    }

    /// Answers a write that fits the schema, and records it: for a caller that has tested the shape.
    ///
    /// # Errors
    ///
    /// `NoMemory` where a growth is refused: nothing changes.
    pub fn write(&mut self, write: Write) -> Result<WriteReply, NoMemory>
        requires { IsTrue (write_fits_schema self.old.schema write) }
        ensures ok { IfOk result (λ reply. IsAnswered self.old write reply self.new) }
        ensures err { OnErr result (self.new ≡ self.old) }
    {
        let write = with_shared_row(write)?;
        self.enter(write, true)
    }

    /// Answers a write as `insert`, `delete` and `set` do, and records it only where it is done. A refused write leaves nothing, so that
    /// whoever keeps no records is refused as often as it likes without a growth.
    ///
    /// # Errors
    ///
    /// `Shape` with the first fault of the row, or of the key and then the cell, and `NoMemory` where a growth is refused: nothing
    /// changes.
    pub fn attempt(&mut self, write: Write) -> Result<WriteReply, WriteFault>
        ensures ok { IfOk result (λ reply. IsMet false self.old write reply self.new) }
        ensures err { OnErr result (self.new ≡ self.old) }
    {
        check_write(self.schema(), &write)?;
        let write = with_shared_row(write)?;
        Ok(self.enter(write, false)?)
    }

    /// Answers a write that fits the schema, whose row is shared, and records it where it is done, or where refusals are recorded too.
    fn enter(&mut self, write: Write, with_refusals: bool) -> Result<WriteReply, NoMemory>
        requires { IsTrue (write_fits_schema self.old.schema write) }
        ensures ok { IfOk result (λ reply. IsMet with_refusals self.old write reply self.new) }
        ensures err { OnErr result (self.new ≡ self.old) }
    {
        let key_cols = self.schema().key_cols();
        let found = self.find(key_of_write(key_cols, &write));
        let reply = reply_where(self.row_limit, found.row.is_there(), self.len(), &write);
        if !with_refusals && !is_done(reply) {
            return Ok(reply);
        }
        reserve_one(&mut self.writes)?;
        let alloc = *self.writes.allocator();
        edit(alloc, &mut self.tree, found, &write, reply)?;
        self.writes.push_reserved((write, reply));
        Ok(reply)
    }

    /// What stands at a key. One descent in each tree.
    fn find(&self, key: &[Value]) -> Found
        ensures found { IsFound self.now key.now result.sid (is_there result.row) (is_inserted result.row) }
        ensures place { IsSplit (stands_before (insert_cmp self.now.schema.key_cols key.now) result.sid) (entries_of self.now)
            result.index }
        ensures kept { IsTrue (is_kept result.row) → IsSplit (stands_before past_cmp result.sid) (entries_of self.now) result.index }
    {
        let (sid, in_base) = self.version.locate(key);
        let place = self.tree.find(sid, Sought::Insert(key));
        Found {
            sid,
            index: place.index,
            row: FoundRow::at(&place, in_base),
        }
    }

    /// The transaction as it stands, to go back to. The tree's nodes are shared, so that it takes no memory.
    ///
    /// # Errors
    ///
    /// `NoMemory` where the tree has 2^63 - 1 owners.
    pub fn mark(&self) -> Result<Mark, NoMemory>
        ensures { IfOk result (λ mark. mark ≡ mark_of self.now) }
    {
        Ok(Mark {
            count: self.writes.len(),
            tree: self.tree.copy()?,
        })
    }

    /// Goes back to a mark that stands: the writes after it are undone, and no record is left of them. It can't fail, and
    /// takes no memory. A mark stands through further writes, and through going back to it or to a later one.
    pub fn back_to(&mut self, mark: Mark)
        requires { IsMark mark self.old }
        ensures { self.new ≡ with_first mark.count self.old }
    {
        let Mark { count, tree } = mark;
        self.writes.truncate(count);
        self.tree = tree;
    }

    /// How many rows the version's table has with its own writes. Takes no memory.
    pub fn len(&self) -> u64
        ensures { result ≡ length (image_of self.now) }
    {
        self.layers().len()
    }

    /// The layers of its version with its own tree on top.
    pub(crate) fn layers(&self) -> Layers<'_>
        ensures schema { result.schema ≡ self.now.schema }
        ensures rows { image_rows result ≡ rows_of (image_of self.now) }
        ensures table { image_table result ≡ image_of self.now }
        ensures lawful { IsTransaction self.now }
    {
        self.version.layers(&self.tree)
    }

    /// Ends the transaction, and leaves no record of it. Takes no memory.
    pub fn abort(self) {
        let Txn {
            client: _,
            version: _version,
            row_limit: _,
            tree: _tree,
            writes: _writes,
            slot: _slot,
        } = self;
    }
}

/// Room for one more write. The first gets room for itself alone: many transactions make one, and their records are kept.
fn reserve_one(writes: &mut Vec<(Write, WriteReply)>) -> Result<(), NoMemory>
    ensures items { writes.new.items ≡ writes.old.items }
    ensures ok { OnOk result (vec_len writes.new + 1 ≤ vec_capacity writes.new) }
{
    if writes.is_empty() {
        writes.reserve_exact(1)?;
    } else {
        writes.try_reserve(1)?;
    }
    Ok(())
}
