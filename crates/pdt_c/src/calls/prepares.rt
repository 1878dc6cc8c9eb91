//! A commit in two parts: it is decided, and then done or given up.
ghost use Rattle.std.specs.Prelude.{◌≡◌, ◌≢◌, IsSome, IfSome, None};
ghost use Rattle.std.specs.Option.{option_map};
ghost use Rattle.model.specs.declared.write.CommitReply.{CommitReply};
ghost use Rattle.manager.specs.Managed.{IsDecided, IsOwn, reply_due};
ghost use Rattle.manager.specs.Prepared.{IsPrepared, spent};
ghost use Rattle.pdt_c.specs.Marks.{handed};
ghost use Rattle.pdt_c.specs.Told.{told};
ghost use Rattle.pdt_c.specs.declared.codes.TheConstants.{NO_MEMORY};

use crate::calls::commits::install;
use crate::codes::{NO_MEMORY, code_of_commit};
use crate::handles::decision::Decision;
use crate::handles::ended::Ended;
use crate::handles::store::Store;
use crate::handles::transaction::{OpenTxn, Transaction};
use crate::handles::{decision, store, transaction};
use manager::Manager;
use std::alloc::Global;
use values::NoMemory;

/// Decides the commit of a transaction that began over this manager, and tells its reply. What it will do goes into a
/// handle that holds nothing; the manager and the transaction are as they were.
#[unsafe(no_mangle)]
pub extern "C" fn pdtr_prepare(
    alloc: Global,
    store: &mut Store,
    txn: &mut Transaction,
    number: &mut u64,
    decision: &mut Decision,
) -> u32
    requires store { IsSome store.old.value }
    requires txn { IsSome txn.old.value }
    requires own { IfSome store.old.value (λ m. IfSome txn.old.value (λ t. IsOwn m t.txn)) }
    ensures kept { (store.new.value ≡ store.old.value) × (txn.new.value ≡ txn.old.value) }

    // What is held is what the commit does, and what is told is the reply that is due to it.
    ensures prepared { result ≢ NO_MEMORY → IfSome store.old.value (λ m. IfSome txn.old.value (λ t.
        IfSome decision.new.value (IsPrepared m t.txn))) }
    ensures told { result ≢ NO_MEMORY → IfSome store.old.value (λ m. IfSome txn.old.value (λ t.
        told (reply_due m t.txn) ≡ (result, number.new))) }
    ensures held { result ≢ NO_MEMORY → IsSome decision.new.value }
    ensures refused { result ≡ NO_MEMORY → decision.new.value ≡ decision.old.value }
{
    let manager = store::take(alloc, store);
    let open = transaction::take(alloc, txn);
    let code = prepare(alloc, &manager, &open, number, decision);
    transaction::put(txn, open);
    store::put(store, manager);
    code
}

fn prepare(
    alloc: Global,
    manager: &Manager,
    begun: &OpenTxn,
    number: &mut u64,
    decision: &mut Decision,
) -> u32
    requires own { IsOwn manager.now begun.now.txn }
    ensures prepared { result ≢ NO_MEMORY → IfSome decision.new.value (IsPrepared manager.now begun.now.txn) }
    ensures told { result ≢ NO_MEMORY → told (reply_due manager.now begun.now.txn) ≡ (result, number.new) }
    ensures held { result ≢ NO_MEMORY → IsSome decision.new.value }
    ensures refused { result ≡ NO_MEMORY → decision.new.value ≡ decision.old.value }
{
    let prepared = match manager.prepare(&begun.txn) {
        Ok(prepared) => prepared,
        Err(NoMemory) => return NO_MEMORY,
    };
    let (code, newest) = code_of_commit(prepared.reply());
    match Box::new(alloc, prepared) {
        Ok(prepared) => {
            decision::put(decision, prepared);
            *number = newest;
            code
        }
        Err(_) => NO_MEMORY,
    }
}

/// Does what was decided for this transaction while the manager is as it was, and tells the reply. The transaction is over, and goes
/// into a handle that holds nothing, with what is replaced: none of it is freed before that is closed. Of the decision the reply alone
/// is left. Takes no memory.
#[unsafe(no_mangle)]
pub extern "C" fn pdtr_install(
    alloc: Global,
    store: &mut Store,
    txn: &mut Transaction,
    decision: &mut Decision,
    ended: &mut Ended,
    number: &mut u64,
) -> u32
    requires store { IsSome store.old.value }
    requires txn { IsSome txn.old.value }
    requires decision { IsSome decision.old.value }
    requires own { IfSome store.old.value (λ m. IfSome txn.old.value (λ t. IsOwn m t.txn)) }
    requires prepared { IfSome store.old.value (λ m. IfSome txn.old.value (λ t. IfSome decision.old.value (IsPrepared m t.txn))) }
    ensures held { IsSome store.new.value }

    // It does what the commit would have done, and tells what the commit would have told.
    ensures decided { IfSome store.old.value (λ m. IfSome txn.old.value (λ t. IfSome store.new.value (λ n.
        (reply : CommitReply) × IsDecided m t.txn reply n × (told reply ≡ (result, number.new))))) }
    ensures ended { txn.new.value ≡ None }
    ensures spent { decision.new.value ≡ option_map spent decision.old.value }
    ensures handed { IfSome store.old.value (λ m. IfSome txn.old.value (λ t. ended.new.value ≡ handed m t ended.old.value)) }
{
    let mut manager = store::take(alloc, store);
    let open = transaction::take(alloc, txn);
    let mut decided = decision::take(alloc, decision);
    let reply = install(&mut manager, open, decided.take(), ended);
    decision::put(decision, decided);
    store::put(store, manager);
    let (code, newest) = code_of_commit(reply);
    *number = newest;
    code
}

/// Lets go of what was decided, or of what is left of it. What was of no effect yet has none: the manager and the transaction are as
/// they were.
#[unsafe(no_mangle)]
pub extern "C" fn pdtr_give_up(alloc: Global, decision: &mut Decision)
    requires { IsSome decision.old.value }
    ensures { decision.new.value ≡ None }
{
    let _prepared = decision::take(alloc, decision);
}
