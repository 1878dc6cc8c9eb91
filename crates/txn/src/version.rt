//! A version of the table, which its readers share.
ghost use Rattle.std.specs.Prelude.{◌≡◌, IfOk, is_some, length};
ghost use Rattle.model.specs.Table.{IsTable, rank, row_at, rows_of};
ghost use Rattle.model.specs.Merging.{merged_rows};
ghost use Rattle.merge.specs.Image.{IsLayer, image_rows, image_table, stack_below, stack_of};
ghost use Rattle.stable.specs.Stable.{IsStable};
ghost use Rattle.values.specs.Shape.{IsSchema};

use delta::DeltaTree;
use merge::{Layers, ReadTree};
use stable::StableTable;
use std::alloc::Global;
use std::marker::Model;
use std::sync::Arc;
use values::{NoMemory, Schema, Value};

/// A stable table under its Read- and its Write-PDT.
#[derive(Drop)]
struct Base {
    stable: Arc<StableTable>,
    read: Arc<ReadTree>,
    write: Arc<DeltaTree>,
}

impl Model for Base {
    ghost use Rattle.txn.specs.Version.{Lower, AreLower};

    ghost Value = { Lower };

    ghost view = { λ b. record { stable = b.stable.value; read = b.read.value; write = b.write.value } };

    ghost invariant = { λ b. AreLower (record { stable = b.stable.value; read = b.read.value; write = b.write.value }) };
}

impl Base {
    ghost use Rattle.txn.specs.Version.{lower_table};

    fn stable(&self) -> &Arc<StableTable>
        ensures { result.now.value ≡ self.now.stable }
    {
        &self.stable
    }

    fn read(&self) -> &Arc<ReadTree>
        ensures { result.now.value ≡ self.now.read }
    {
        &self.read
    }

    fn write(&self) -> &Arc<DeltaTree>
        ensures { result.now.value ≡ self.now.write }
    {
        &self.write
    }

    /// The same layers with an equal Read-PDT.
    fn with_read(&self, read: Arc<ReadTree>) -> Result<Base, NoMemory>
        requires { read.value ≡ self.now.read }
        ensures { IfOk result (λ base. base ≡ self.now) }
    {
        Ok(Base {
            stable: self.stable.clone()?,
            read,
            write: self.write.clone()?,
        })
    }

    /// The columns of the table.
    fn schema(&self) -> &Schema
        ensures columns { result.now ≡ self.now.stable.schema }
        ensures lawful { IsTable self.now.stable.schema (lower_table self.now) }
    {
        self.stable.schema()
    }

    /// The layers with a transaction's tree on top.
    fn layers<'a>(&'a self, trans: &'a DeltaTree) -> Layers<'a>
        requires { IsLayer self.now.stable.schema (lower_table self.now) trans.now }
        ensures { result ≡ stack_of self.now.stable self.now.read self.now.write trans.now }
    {
        Layers::new(&self.stable, self.read.tree(), &self.write, trans)
    }

    /// How many rows have a key below that of these cells, and whether there is a row of that key.
    fn locate(&self, key: &[Value]) -> (u64, bool)
        ensures rank { result.0 ≡ rank key.now (lower_table self.now) }
        ensures there { result.1 ≡ is_some (row_at (lower_table self.now) key.now) }
    {
        self.image().locate(key)
    }

    /// How many rows there are.
    fn len(&self) -> u64
        ensures { result ≡ length (lower_table self.now) }
    {
        self.image().len()
    }

    /// The layers with no transaction on top.
    fn image(&self) -> Layers<'_>
        ensures schema { result.schema ≡ self.now.stable.schema }
        ensures rows { image_rows result ≡ rows_of (lower_table self.now) }
        ensures table { image_table result ≡ lower_table self.now }
        ensures layers { result ≡ stack_below self.now.stable self.now.read self.now.write }
    {
        Layers::committed(&self.stable, self.read.tree(), &self.write)
    }
}

/// A table, and how many commits made it. Its layers are behind one `Arc`, so that a copy takes one owner more.
#[derive(Drop)]
pub struct Version {
    base: Arc<Base>,
    number: u64,
}

impl Model for Version {
    ghost use Rattle.txn.specs.Version.{LayeredVersion, numbered};

    ghost Value = { LayeredVersion };

    ghost view = { λ v. numbered v.base.value v.number };
}

impl Version {
    ghost use Rattle.txn.specs.Version.{AreLower, alone, lower_table, numbered};

    /// The version of a stable table that so many commits made, with no entries above it.
    ///
    /// # Errors
    ///
    /// `NoMemory` where a growth is refused.
    pub fn new(alloc: Global, stable: Arc<StableTable>, number: u64) -> Result<Version, NoMemory>
        ensures version { IfOk result (λ version. version ≡ numbered (alone stable.value) number) }
        ensures lawful { IsStable stable.value }
        ensures typed { IsSchema stable.value.schema }
    {
        let key_cols = stable.schema().key_cols();
        let under = DeltaTree::new(alloc, key_cols);
        let over = DeltaTree::new(alloc, key_cols);
        let read = Arc::new(alloc, ReadTree::new(under))?;
        let write = Arc::new(alloc, over)?;
        Version::stacked(alloc, stable, read, write, number)
    }

    /// The version of a stable table under its Read- and its Write-PDT, which so many commits made.
    ///
    /// # Errors
    ///
    /// `NoMemory` where a growth is refused.
    pub fn stacked(
        alloc: Global,
        stable: Arc<StableTable>,
        read: Arc<ReadTree>,
        write: Arc<DeltaTree>,
        number: u64,
    ) -> Result<Version, NoMemory>
        requires { AreLower (record { stable = stable.value; read = read.value; write = write.value }) }
        ensures { IfOk result
            (λ version. version ≡ numbered (record { stable = stable.value; read = read.value; write = write.value }) number) }
    {
        let base = Base {
            stable,
            read,
            write,
        };
        Ok(Version {
            base: Arc::new(alloc, base)?,
            number,
        })
    }

    /// The same version, shared.
    ///
    /// # Errors
    ///
    /// `NoMemory` where one owner more is refused.
    pub fn copy(&self) -> Result<Version, NoMemory>
        ensures { IfOk result (λ copied. copied ≡ self.now) }
    {
        Ok(Version {
            base: self.base.clone()?,
            number: self.number,
        })
    }

    /// The same version, with its Read-PDT packed. It takes a walk over that tree, and two for each column of numbers; everything else
    /// is shared.
    ///
    /// # Errors
    ///
    /// `NoMemory` where a growth, or a share of a layer, is refused.
    pub fn packed(&self, alloc: Global) -> Result<Version, NoMemory>
        ensures { IfOk result (λ packed. packed ≡ self.now) }
    {
        let read = self.read().to_packed(alloc, self.schema())?;
        self.with_read(alloc, Arc::new(alloc, read)?)
    }

    /// The same version, which shares the Read-PDT of another one: an equal tree, packed or not.
    ///
    /// # Errors
    ///
    /// `NoMemory` where a growth, or a share of a layer, is refused.
    pub fn with_read_of(&self, alloc: Global, other: &Version) -> Result<Version, NoMemory>
        requires { other.now.layers.read ≡ self.now.layers.read }
        ensures { IfOk result (λ version. version ≡ self.now) }
    {
        self.with_read(alloc, other.read().clone()?)
    }

    /// The same version with an equal Read-PDT.
    fn with_read(&self, alloc: Global, read: Arc<ReadTree>) -> Result<Version, NoMemory>
        requires { read.value ≡ self.now.layers.read }
        ensures { IfOk result (λ version. version ≡ self.now) }
    {
        let base = self.base.with_read(read)?;
        Ok(Version {
            base: Arc::new(alloc, base)?,
            number: self.number,
        })
    }

    /// The stable table, which the versions over it share. Takes no memory.
    pub fn stable(&self) -> &Arc<StableTable>
        ensures { result.now.value ≡ self.now.layers.stable }
    {
        self.base.stable()
    }

    /// The Read-PDT, which the versions over it share. Takes no memory.
    pub fn read(&self) -> &Arc<ReadTree>
        ensures { result.now.value ≡ self.now.layers.read }
    {
        self.base.read()
    }

    /// Its tree. Takes no memory.
    pub fn read_tree(&self) -> &DeltaTree
        ensures { result.now ≡ self.now.layers.read }
    {
        self.base.read().tree()
    }

    /// The Write-PDT. Takes no memory.
    pub fn write_tree(&self) -> &Arc<DeltaTree>
        ensures { result.now.value ≡ self.now.layers.write }
    {
        self.base.write()
    }

    /// How many commits made it.
    pub fn number(&self) -> u64
        ensures { result ≡ self.now.number }
    {
        self.number
    }

    /// The columns of the table.
    pub fn schema(&self) -> &Schema
        ensures columns { result.now ≡ self.now.layers.stable.schema }
        ensures lawful { IsTable self.now.layers.stable.schema (lower_table self.now.layers) }
    {
        self.base.schema()
    }

    /// How many rows the table has.
    pub fn len(&self) -> u64
        ensures { result ≡ length (lower_table self.now.layers) }
    {
        self.base.len()
    }

    /// The layers of the table, whose image is its rows. Takes no memory.
    pub fn image(&self) -> Layers<'_>
        ensures schema { result.schema ≡ self.now.layers.stable.schema }
        ensures rows { image_rows result ≡ rows_of (lower_table self.now.layers) }
        ensures layers { result ≡ stack_below self.now.layers.stable self.now.layers.read self.now.layers.write }
    {
        self.base.image()
    }

    /// The table's layers with a transaction's tree on top.
    pub(crate) fn layers<'a>(&'a self, trans: &'a DeltaTree) -> Layers<'a>
        requires { IsLayer self.now.layers.stable.schema (lower_table self.now.layers) trans.now }
        ensures schema { result.schema ≡ self.now.layers.stable.schema }
        ensures rows { image_rows result ≡ merged_rows (rows_of (lower_table self.now.layers)) trans.now.entries }
        ensures read { result.read ≡ self.now.layers.read.entries }
    {
        self.base.layers(trans)
    }

    /// How many rows have a key below that of these cells, and whether the table has that key: by halving in the stable
    /// table and a few descents in each tree.
    pub(crate) fn locate(&self, key: &[Value]) -> (u64, bool)
        ensures rank { result.0 ≡ rank key.now (lower_table self.now.layers) }
        ensures there { result.1 ≡ is_some (row_at (lower_table self.now.layers) key.now) }
    {
        self.base.locate(key)
    }
}
