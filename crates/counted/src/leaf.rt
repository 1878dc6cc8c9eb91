//! The entries of one leaf.
ghost use Rattle.std.specs.Prelude.{◌≡◌, ◌^◌, ◌+◌, ◌<◌, ◌≤◌, ◌++◌, length, IfOk, OnOk};
ghost use Rattle.counted.specs.Few.{IsCountable};
ghost use Rattle.counted.specs.declared.node.TheConstants.{MAX_WIDTH};
ghost use Rattle.counted.specs.Sums.{total};
ghost use Rattle.counted.specs.Edits.{put_items, edited};

use crate::SharedEntry;
use crate::node::MAX_WIDTH;
use std::alloc::{AllocError, Global};

/// What the entries add.
pub(crate) fn total_of(entries: &[SharedEntry]) -> i64
    requires { IsCountable (length entries.now) }
    ensures { result ≡ total entries.now }
{
    let mut sum = 0;
    for entry in entries {
        sum += entry.weight();
    }
    sum
}

/// The entries with those from an index on, so many of them, replaced by another, if there is one.
pub(crate) fn edited_leaf(
    alloc: Global,
    entries: &[SharedEntry],
    at: usize,
    gone: usize,
    put: Option<SharedEntry>,
) -> Result<Vec<SharedEntry>, AllocError>
    requires within { at + gone ≤ length entries.now }
    requires few { length entries.now < 2 ^ 32 }
    ensures { IfOk result (λ v. v.items ≡ edited at gone (put_items put) entries.now) }
{
    let mut out = Vec::with_capacity(alloc, entries.len() + 1)?;
    push_entries(&mut out, &entries[..at])?;
    push_some(&mut out, put)?;
    push_entries(&mut out, &entries[at + gone..])?;
    Ok(out)
}

/// The entries of one leaf and then those of another.
pub(crate) fn both_leaves(
    alloc: Global,
    left: &[SharedEntry],
    right: &[SharedEntry],
) -> Result<Vec<SharedEntry>, AllocError>
    requires left { length left.now ≤ MAX_WIDTH }
    requires right { length right.now ≤ MAX_WIDTH }
    ensures { IfOk result (λ v. v.items ≡ left.now ++ right.now) }
{
    let mut out = Vec::with_capacity(alloc, left.len() + right.len())?;
    push_entries(&mut out, left)?;
    push_entries(&mut out, right)?;
    Ok(out)
}

/// How many entries are put in: one, or none.
pub(crate) fn count_put(put: &Option<SharedEntry>) -> usize
    ensures { result ≡ length (put_items put.now) }
{
    match put {
        Some(_) => 1,
        None => 0,
    }
}

/// The entry, if there is one, at the end of a vector.
pub(crate) fn push_some(
    out: &mut Vec<SharedEntry>,
    put: Option<SharedEntry>,
) -> Result<(), AllocError>
    ensures { OnOk result (out.new.items ≡ out.old.items ++ put_items put) }
{
    if let Some(entry) = put {
        out.push(entry)?;
    }
    Ok(())
}

/// The same entries, with room for the most.
pub(crate) fn copied_entries(
    alloc: Global,
    entries: &[SharedEntry],
) -> Result<Vec<SharedEntry>, AllocError>
    requires { length entries.now ≤ MAX_WIDTH }
    ensures { IfOk result (λ v. v.items ≡ entries.now) }
{
    let mut out = Vec::with_capacity(alloc, MAX_WIDTH)?;
    for entry in entries {
        out.push_reserved(entry.copy()?);
    }
    Ok(out)
}

/// The same entries, at the end of a vector.
pub(crate) fn push_entries(
    out: &mut Vec<SharedEntry>,
    entries: &[SharedEntry],
) -> Result<(), AllocError>
    ensures { OnOk result (out.new.items ≡ out.old.items ++ entries.now) }
{
    for entry in entries {
        out.push(entry.copy()?)?;
    }
    Ok(())
}
