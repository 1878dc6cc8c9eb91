//! The place of a number among ascending ones that are in blocks: the block first, then the place in it.
ghost use Rattle.std.specs.Prelude.{◌≡◌, ◌<◌, ◌≤◌, ◌^◌, true, false, get_or, length};
ghost use Rattle.std.specs.List.Sorted.{IsPartitionedBy, IsPartitionPoint};
ghost use Rattle.values.specs.declared.value.ColumnType.TheVariants as column;
ghost use Rattle.values.specs.declared.value.Value.TheVariants.{Bool as Truth};
ghost use Rattle.stable.specs.Column.{IsInBlocks, is_below, joined};

use blocks::{Block, BlockValues};
use values::limits::MAX_BLOCK_VALUES;

/// How many of the numbers of blocks, which ascend, are below this one.
pub(crate) fn count_below(blocks: &[Block], number: i64) -> usize
    requires blocked { IsInBlocks column.Int (length (joined blocks.now)) blocks.now }
    requires room { length (joined blocks.now) < 2 ^ 64 }
    requires parted { IsPartitionedBy (is_below number) (joined blocks.now) }
    ensures few { result ≤ length (joined blocks.now) }
    ensures point { IsPartitionPoint (λ v. is_below number v ≡ true) (λ v. is_below number v ≡ false) (joined blocks.now) result }
{
    let after = blocks.partition_point(|block| begins_below(block, number));
    if after == 0 {
        return 0;
    }
    let before = after - 1;
    MAX_BLOCK_VALUES * before + count_in(&blocks[before], number)
}

/// Whether the first of a block's values is a number below this one.
fn begins_below(block: &Block, number: i64) -> bool
    ensures { result ≡ is_below number (get_or block.now.values 0 (Truth false)) }
{
    match block.values() {
        BlockValues::Ints(numbers) => !numbers.is_empty() && numbers[0] < number,
        _ => false,
    }
}

/// How many of a block's numbers, which ascend, are below this one.
fn count_in(block: &Block, number: i64) -> usize
    requires typed { block.now.ty ≡ column.Int }
    requires parted { IsPartitionedBy (is_below number) block.now.values }
    ensures few { result ≤ length block.now.values }
    ensures point { IsPartitionPoint (λ v. is_below number v ≡ true) (λ v. is_below number v ≡ false) block.now.values result }
{
    match block.values() {
        BlockValues::Ints(numbers) => numbers.partition_point(|kept| *kept < number),
        _ => unreachable!(),
    }
}
