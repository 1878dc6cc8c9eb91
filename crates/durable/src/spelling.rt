//! What is logged of a commit, spelt.
ghost use Rattle.std.specs.Prelude.{◌≡◌, ◌<◌, ◌≤◌, ◌^◌, suc, Ok, Err, length, IfOk, IfSome, IsTrue, OnErr, OnOk};
ghost use Rattle.codec.specs.Fit.{EntriesFit};
ghost use Rattle.codec.specs.Reading.{entries_in};
ghost use Rattle.codec.specs.declared.fault.SpellFault.TheVariants as spell_fault;
ghost use Rattle.manager.specs.Managed.{IsOwn, is_too_old, newest_number};
ghost use Rattle.manager.specs.Prepared.{IsPrepared};
ghost use Rattle.durable.specs.Durable.{payload_for};
ghost use Rattle.durable.specs.Spelled.{IsSpelled, payload_of};

use codec::{SpellFault, commit_entries_fit, write_part};
use delta::DeltaTree;
use manager::{Manager, Prepared};
use model::CommitReply;
use txn::Txn;
use values::Schema;

/// The most bytes that the payload of a frame has.
const MAX_PAYLOAD: usize = u32::MAX as usize;

/// Spells what was prepared for the commit of a transaction, in the place of what the buffer had, and answers the commit's number.
/// Answers None where the reply isn't Committed: then there is nothing to log.
///
/// # Errors
///
/// `TooLong` where the payload would have 2^32 bytes or more, `NoMemory` where a growth is refused.
pub fn spell_prepared(
    payload: &mut Vec<u8>,
    table: u32,
    manager: &Manager,
    txn: &Txn,
    prepared: &Prepared,
) -> Result<Option<u64>, SpellFault>
    requires own { IsOwn manager.now txn.now }
    requires prepared { IsPrepared manager.now txn.now prepared.now }
    ensures spelt { IfOk result (λ number. IsSpelled manager.now table txn.now prepared.now.reply number payload.new.items) }
    ensures next { IfOk result (λ number. IfSome number (λ n. n ≡ suc (newest_number manager.now))) }
    ensures long { result ≡ Err spell_fault.TooLong → 2 ^ 32 ≤ length (payload_of table manager.now txn.now) }
    ensures granted { OnErr result (IsTrue (is_too_old manager.now txn.now) → ⊥) }
{
    // These are called for what their clauses tell.
    commit_entries_fit();
    let _history = manager.history();
    let _begin = txn.begin();
    let Some(tree) = prepared.tree() else {
        return Ok(None);
    };
    match prepared.reply() {
        CommitReply::Committed(number) => {
            let schema = manager.newest().schema();
            spell(payload, schema, table, tree)?;
            Ok(Some(number))
        }
        _ => Ok(None),
    }
}

/// Puts the payload of a commit in the place of what stood there: a part of the table where the commit changes it.
fn spell(
    payload: &mut Vec<u8>,
    schema: &Schema,
    table: u32,
    tree: &DeltaTree,
) -> Result<(), SpellFault>
    requires fits { EntriesFit schema.now tree.now.entries }
    ensures ok { OnOk result (payload.new.items ≡ payload_for table tree.now.entries) }
    ensures short { OnOk result (length (payload_for table tree.now.entries) < 2 ^ 32) }
    ensures again { OnOk result (entries_in schema.now table (payload_for table tree.now.entries) ≡ Ok tree.now.entries) }
    ensures long { result ≡ Err spell_fault.TooLong → 2 ^ 32 ≤ length (payload_for table tree.now.entries) }
{
    payload.clear();
    if tree.len() > 0 {
        write_part(schema, table, tree, payload)?;
    }
    if payload.len() > MAX_PAYLOAD {
        return Err(SpellFault::TooLong);
    }
    Ok(())
}
