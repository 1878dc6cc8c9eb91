//! A tree made consecutive to several others, one after another.
ghost use Rattle.std.specs.Prelude.{IfOk, drop};
ghost use Rattle.manager.specs.Passing.{MayPass, IsThrough};

use circular_buffer::HeapCircularBuffer;
use delta::DeltaTree;
use layers::{ConflictRule, Passage, Passed};
use std::alloc::Global;
use values::NoMemory;

/// The tree made consecutive to each of the kept ones from an index on, in their order, or none where it conflicts with
/// one.
pub(crate) fn passed_through(
    alloc: Global,
    tree: DeltaTree,
    kept: &HeapCircularBuffer<DeltaTree>,
    first: usize,
    conflicts: ConflictRule,
) -> Result<Option<DeltaTree>, NoMemory>
    requires { MayPass conflicts (drop first kept.now.items) tree }
    ensures { IfOk result (λ passed. (w : MayPass conflicts (drop first kept.now.items) tree)
        → IsThrough conflicts (drop first kept.now.items) tree w passed) }
{
    let mut passage = Passage::of(tree);
    for index in first..kept.len() {
        let other = kept.get(index).unwrap();
        match passage.pass(alloc, other, conflicts)? {
            Passed::On(next) => passage = next,
            Passed::Conflict(_) => return Ok(None),
        }
    }
    Ok(Some(passage.into_tree(alloc)?))
}
