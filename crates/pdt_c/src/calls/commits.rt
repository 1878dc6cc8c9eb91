//! Transactions from begin to commit.
ghost use Rattle.std.specs.Prelude.{◌≡◌, ◌≢◌, IsSome, IfSome, Some, None, length};
ghost use Rattle.model.specs.declared.write.CommitReply.{CommitReply};
ghost use Rattle.manager.specs.Managed.{begun_at, IsDecided, IsOwn};
ghost use Rattle.manager.specs.Prepared.{IsPrepared};
ghost use Rattle.txn.specs.Txn.{entries_of};
ghost use Rattle.pdt_c.specs.Marks.{handed, unmarked};
ghost use Rattle.pdt_c.specs.Told.{told};
ghost use Rattle.pdt_c.specs.declared.codes.TheConstants.{DONE, NO_MEMORY};

use crate::codes::{NO_MEMORY, code_of_commit};
use crate::handles::ended::Ended;
use crate::handles::store::Store;
use crate::handles::transaction::{OpenTxn, Transaction};
use crate::handles::{ended, store, transaction};
use manager::{Manager, Prepared};
use model::CommitReply;
use std::alloc::Global;
use values::NoMemory;

/// Begins a transaction of a client over the newest table, into a handle that holds nothing.
#[unsafe(no_mangle)]
pub extern "C" fn pdtr_begin(
    alloc: Global,
    store: &mut Store,
    client: u32,
    txn: &mut Transaction,
) -> u32
    requires { IsSome store.old.value }
    ensures store { store.new.value ≡ store.old.value }
    ensures done { result ≡ DONE → IfSome store.old.value (λ m. txn.new.value ≡ Some (unmarked (begun_at m client))) }
    ensures refused { result ≢ DONE → txn.new.value ≡ txn.old.value }
{
    let manager = store::take(alloc, store);
    let code = begin(alloc, &manager, client, txn);
    store::put(store, manager);
    code
}

fn begin(alloc: Global, manager: &Manager, client: u32, txn: &mut Transaction) -> u32
    ensures done { result ≡ DONE → txn.new.value ≡ Some (unmarked (begun_at manager.now client)) }
    ensures refused { result ≢ DONE → txn.new.value ≡ txn.old.value }
{
    match manager.begin(client) {
        Ok(begun) => transaction::open(alloc, begun, txn),
        Err(NoMemory) => NO_MEMORY,
    }
}

/// Ends a transaction, and leaves no record of it.
#[unsafe(no_mangle)]
pub extern "C" fn pdtr_abort(alloc: Global, txn: &mut Transaction)
    requires { IsSome txn.old.value }
    ensures { txn.new.value ≡ None }
{
    let _open = transaction::take(alloc, txn);
}

/// Commits a transaction that began over this manager. Where memory is refused it stays open, and nothing changes. Else it goes into
/// a handle that holds nothing, with what the commit replaces: none of it is freed before that is closed.
#[unsafe(no_mangle)]
pub extern "C" fn pdtr_commit(
    alloc: Global,
    store: &mut Store,
    txn: &mut Transaction,
    ended: &mut Ended,
    number: &mut u64,
) -> u32
    requires store { IsSome store.old.value }
    requires txn { IsSome txn.old.value }
    requires own { IfSome store.old.value (λ m. IfSome txn.old.value (λ t. IsOwn m t.txn)) }
    ensures held { IsSome store.new.value }

    // What it tells is the reply that is due, and the transaction is over.
    ensures decided { result ≢ NO_MEMORY → IfSome store.old.value (λ m. IfSome txn.old.value (λ t. IfSome store.new.value (λ n.
        (reply : CommitReply) × IsDecided m t.txn reply n × (told reply ≡ (result, number.new))))) }
    ensures ended { result ≢ NO_MEMORY → txn.new.value ≡ None }
    ensures handed { result ≢ NO_MEMORY → IfSome store.old.value (λ m. IfSome txn.old.value (λ t. ended.new.value ≡ handed m t ended.old.value)) }
    ensures refused { result ≡ NO_MEMORY → (store.new.value ≡ store.old.value) × (txn.new.value ≡ txn.old.value)
        × (ended.new.value ≡ ended.old.value) }
{
    let mut manager = store::take(alloc, store);
    let open = transaction::take(alloc, txn);
    let code = commit(&mut manager, open, txn, ended, number);
    store::put(store, manager);
    code
}

/// Commits what was taken from an empty handle, and puts it back where memory is refused.
fn commit(
    manager: &mut Manager,
    begun: Box<OpenTxn>,
    txn: &mut Transaction,
    ended: &mut Ended,
    number: &mut u64,
) -> u32
    requires own { IsOwn manager.old begun.value.txn }
    ensures decided { result ≢ NO_MEMORY
        → (reply : CommitReply) × IsDecided manager.old begun.value.txn reply manager.new × (told reply ≡ (result, number.new)) }
    ensures ended { result ≢ NO_MEMORY → txn.new.value ≡ txn.old.value }
    ensures handed { result ≢ NO_MEMORY → ended.new.value ≡ handed manager.old begun.value ended.old.value }
    ensures refused { result ≡ NO_MEMORY → (manager.new ≡ manager.old) × (txn.new.value ≡ Some begun.value)
        × (ended.new.value ≡ ended.old.value) }
{
    match manager.prepare(&begun.txn) {
        Ok(prepared) => {
            let reply = install(manager, begun, prepared, ended);
            let (code, newest) = code_of_commit(reply);
            *number = newest;
            code
        }
        Err(NoMemory) => {
            transaction::put(txn, begun);
            NO_MEMORY
        }
    }
}

/// Does what was prepared. The transaction goes into an empty handle with what is replaced, unless the history takes its record.
pub(crate) fn install(
    manager: &mut Manager,
    begun: Box<OpenTxn>,
    prepared: Prepared,
    ended: &mut Ended,
) -> CommitReply
    requires own { IsOwn manager.old begun.value.txn }
    requires prepared { IsPrepared manager.old begun.value.txn prepared }
    ensures decided { IsDecided manager.old begun.value.txn result manager.new }
    ensures handed { ended.new.value ≡ handed manager.old begun.value ended.old.value }
{
    let mut over = begun;
    match manager.install_counted(&over.txn, prepared) {
        Ok((reply, replaced)) => {
            over.keep(replaced);
            ended::put(ended, over);
            reply
        }
        Err(prepared) => manager.install(Box::into_inner(over).into_txn(), prepared),
    }
}

/// Lets go of a transaction that is over, and of what its commit replaced.
#[unsafe(no_mangle)]
pub extern "C" fn pdtr_ended_close(alloc: Global, ended: &mut Ended)
    requires { IsSome ended.old.value }
    ensures { ended.new.value ≡ None }
{
    let _ended = ended::take(alloc, ended);
}

/// The number of the table that a transaction began over: how many commits made it.
#[unsafe(no_mangle)]
pub extern "C" fn pdtr_begun(alloc: Global, txn: &mut Transaction) -> u64
    requires { IsSome txn.old.value }
    ensures kept { txn.new.value ≡ txn.old.value }
    ensures number { IfSome txn.old.value (λ t. result ≡ t.txn.begin) }
{
    let open = transaction::take(alloc, txn);
    let number = open.txn.begin();
    transaction::put(txn, open);
    number
}

/// How many entries a transaction's writes have come to: none where it changes nothing.
#[unsafe(no_mangle)]
pub extern "C" fn pdtr_own_entries(alloc: Global, txn: &mut Transaction) -> usize
    requires { IsSome txn.old.value }
    ensures kept { txn.new.value ≡ txn.old.value }
    ensures entries { IfSome txn.old.value (λ t. result ≡ length (entries_of t.txn)) }
{
    let open = transaction::take(alloc, txn);
    let count = open.txn.tree().len();
    transaction::put(txn, open);
    count
}
