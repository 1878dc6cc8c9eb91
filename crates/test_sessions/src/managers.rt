//! The manager that sessions share.
ghost use Rattle.std.specs.Prelude.{◌≡◌, [], IfOk};

use manager::Manager;
use model::ConflictRule;
use std::alloc::Global;
use std::test::Fail;
use test_fixtures::base_table;

/// A manager of the base table, by column, with these limits.
pub(crate) fn base_manager(alloc: Global, recent: usize, limit: u64) -> Result<Manager, Fail>
    ensures { IfOk result (λ manager. manager.history ≡ []) }
{
    let table = base_table(alloc)?;
    match Manager::open(alloc, table, recent, limit, ConflictRule::ByColumn) {
        Ok(manager) => Ok(manager),
        Err(fault) => Err(fault.into()),
    }
}
