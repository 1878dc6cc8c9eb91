//! A block as a column stores it: its payload, lent.
ghost use Rattle.std.specs.Prelude.{◌≡◌, ◌≤◌, length, IfOk};
ghost use Rattle.values.specs.declared.limits.TheConstants.{MAX_BLOCK_VALUES};
ghost use Rattle.blocks.specs.Reading.{Gives as GivesValues};
ghost use Rattle.frames.specs.Stored.{reading_in};

use crate::frame::{Format, Kind};
use blocks::{Block, BlockFault, read_block, read_block2};
use std::alloc::Global;
use std::marker::Model;
use values::NoMemory;

/// A block by its payload, which lies among the bytes of its column and has no fault. It takes no memory until it is read.
#[derive(Drop)]
pub struct StoredBlock<'a> {
    kind: Kind,
    count: usize,
    payload: &'a [u8],
}

impl<'a> Model for StoredBlock<'a> {
    ghost use Rattle.blocks.specs.Column.{Column};

    ghost Value = { Column };

    ghost use Rattle.frames.specs.Stored.{IsRead, values_read};

    ghost view = { λ b. record { ty = b.kind.ty; values = values_read b.kind b.count b.payload.now } };

    ghost invariant = { λ b. IsRead b.kind b.count b.payload.now };
}

impl<'a> StoredBlock<'a> {
    /// The block of this kind with so many values, at most 1,024, whose payload the bytes are. The values are read once,
    /// for the fault that the bytes may have, and are not kept.
    ///
    /// # Errors
    ///
    /// The first fault from the left, where the bytes are the payload of no such block, or `NoMemory` where a growth is
    /// refused.
    pub(crate) fn tested(
        alloc: Global,
        kind: Kind,
        count: usize,
        payload: &'a [u8],
    ) -> Result<StoredBlock<'a>, BlockFault>
        requires { count ≤ MAX_BLOCK_VALUES }
        ensures ty { IfOk result (λ block. block.ty ≡ kind.ty) }
        ensures first { GivesValues (λ block. block.values) result (reading_in kind.format kind.ty count payload.now) }
    {
        block_in(alloc, kind, count, payload)?;
        Ok(StoredBlock {
            kind,
            count,
            payload,
        })
    }

    /// How many values it has, at most 1,024.
    pub fn len(&self) -> usize
        ensures len { result ≡ length self.now.values }
        ensures few { result ≤ MAX_BLOCK_VALUES }
    {
        self.count
    }

    /// The block, in memory of its own.
    ///
    /// # Errors
    ///
    /// `NoMemory` where a growth is refused.
    pub fn read(&self, alloc: Global) -> Result<Block, NoMemory>
        ensures { IfOk result (λ block. block ≡ self.now) }
    {
        match block_in(alloc, self.kind, self.count, self.payload) {
            Ok(block) => Ok(block),
            Err(BlockFault::NoMemory) => Err(NoMemory),
            Err(_) => unreachable!(),
        }
    }
}

/// The block of so many values whose payload the bytes are, in the format of its header.
fn block_in(alloc: Global, kind: Kind, count: usize, payload: &[u8]) -> Result<Block, BlockFault>
    requires { count ≤ MAX_BLOCK_VALUES }
    ensures ty { IfOk result (λ block. block.ty ≡ kind.ty) }
    ensures first { GivesValues (λ block. block.values) result (reading_in kind.format kind.ty count payload.now) }
{
    match kind.format {
        Format::First => read_block(alloc, kind.ty, count, payload),
        Format::Second => read_block2(alloc, kind.ty, count, payload),
    }
}
