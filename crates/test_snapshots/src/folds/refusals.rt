//! A fold, and a tree made consecutive, where a growth is refused in it: both trees that are lent list what they listed,
//! and the same call answers right when it is made again.
//!
//! The tests of folds make their calls here, so that each of their worked states is one of these. One growth of a run is
//! refused under `rt try --test --fail-alloc N`, for N from 1 on. Where it is one of such a call, the test ends well; where
//! it is one of what the test makes for itself, the test ends with that error.
ghost use Rattle.layers.specs.Over.{AreAligned, AreConsecutive};

use crate::folds::{Aligned, Stacked, assert_entries};
use delta::DeltaTree;
use layers::{ConflictRule, Serialized, propagate, serialize};
use std::alloc::Global;
use std::process::Abort;
use std::test::Fail;
use values::NoMemory;

/// The upper tree folded into the lower one, which have these entries then. Where a growth is refused, it is folded again.
pub(crate) fn folded(
    rt: &impl Abort,
    alloc: Global,
    trees: &Stacked,
    entries: [&str; 2],
) -> Result<DeltaTree, Fail>
    requires { AreConsecutive trees.now.lower trees.now.upper }
{
    let answer = propagate(alloc, &trees.lower, &trees.upper);
    assert_entries(rt, alloc, &trees.lower, entries[0], "the lower entries")?;
    assert_entries(rt, alloc, &trees.upper, entries[1], "the upper entries")?;
    match answer {
        Ok(tree) => Ok(tree),
        Err(NoMemory) => Ok(propagate(alloc, &trees.lower, &trees.upper)?),
    }
}

/// The first tree beside the second, by the rule, which have these entries then. Where a growth is refused, it is made
/// consecutive again.
pub(crate) fn passed(
    rt: &impl Abort,
    alloc: Global,
    rule: ConflictRule,
    trees: &Aligned,
    entries: [&str; 2],
) -> Result<Serialized, Fail>
    requires { AreAligned trees.now.x trees.now.y }
{
    let answer = serialize(alloc, &trees.x, &trees.y, rule);
    assert_entries(rt, alloc, &trees.x, entries[0], "the first one's entries")?;
    assert_entries(rt, alloc, &trees.y, entries[1], "the second one's entries")?;
    match answer {
        Ok(serialized) => Ok(serialized),
        Err(NoMemory) => Ok(serialize(alloc, &trees.x, &trees.y, rule)?),
    }
}
