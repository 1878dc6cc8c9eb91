//! Places in a transaction's writes to which it goes back: what SQL calls savepoints.
ghost use Rattle.std.specs.Prelude.{◌≡◌, ◌≢◌, ◌≤◌, ◌↔◌, cond, nat_lt, IfOk, IfSome, IsSome, OnErr, length};
ghost use Rattle.pdt_c.specs.Marks.{GoesBack, released, with_mark};
ghost use Rattle.pdt_c.specs.declared.codes.TheConstants.{DONE, MISSING};

use crate::codes::{DONE, MISSING, NO_MEMORY};
use crate::handles::transaction::{OpenTxn, Transaction, put, take};
use std::alloc::Global;
use values::NoMemory;

impl OpenTxn {
    /// Marks the transaction as it stands, and answers the mark's level: how many there were.
    ///
    /// # Errors
    ///
    /// `NoMemory` where room for one mark more is refused: nothing changes.
    fn mark(&mut self) -> Result<usize, NoMemory>
        ensures ok { IfOk result (λ level. (level ≡ length self.old.marks) × (self.new ≡ with_mark self.old)) }
        ensures err { OnErr result (self.new ≡ self.old) }
    {
        let level = self.marks.len();
        self.marks.try_reserve(1)?;
        self.marks.push_reserved(self.txn.mark()?);
        Ok(level)
    }

    /// Goes back to the mark of a level, which stays.
    fn back_to(&mut self, level: usize) -> u32
        ensures done { result ≡ DONE → GoesBack level self.old self.new }
        ensures missing { result ≡ MISSING ↔ length self.old.marks ≤ level }
        ensures kept { result ≢ DONE → self.new ≡ self.old }
    {
        let mark = match self.marks.get(level) {
            Some(mark) => match mark.copy() {
                Ok(mark) => mark,
                Err(NoMemory) => return NO_MEMORY,
            },
            None => return MISSING,
        };
        self.marks.truncate(level + 1);
        self.txn.back_to(mark);
        DONE
    }

    /// Forgets the mark of a level and those after it, and keeps the writes.
    fn release(&mut self, level: usize) -> u32
        ensures told { result ≡ cond (nat_lt level (length self.old.marks)) DONE MISSING }
        ensures marks { self.new ≡ released level self.old }
    {
        let is_there = level < self.marks.len();
        self.marks.truncate(level);
        if is_there { DONE } else { MISSING }
    }
}

/// Marks a transaction as it stands. The level of the mark is how many there were before.
#[unsafe(no_mangle)]
pub extern "C" fn pdtr_mark(alloc: Global, txn: &mut Transaction, level: &mut usize) -> u32
    requires { IsSome txn.old.value }
    ensures held { IsSome txn.new.value }
    ensures done { result ≡ DONE → IfSome txn.old.value (λ t. IfSome txn.new.value (λ n.
        (level.new ≡ length t.marks) × (n ≡ with_mark t))) }
    ensures refused { result ≢ DONE → txn.new.value ≡ txn.old.value }
{
    let mut open = take(alloc, txn);
    let marked = open.mark();
    put(txn, open);
    match marked {
        Ok(made) => {
            *level = made;
            DONE
        }
        Err(NoMemory) => NO_MEMORY,
    }
}

/// Goes back to the mark of a level: the writes after it are undone and leave no record, and the marks after it are gone.
/// Takes no memory: it is refused only where a tree has 2^63 - 1 owners.
#[unsafe(no_mangle)]
pub extern "C" fn pdtr_back_to(alloc: Global, txn: &mut Transaction, level: usize) -> u32
    requires { IsSome txn.old.value }
    ensures held { IsSome txn.new.value }
    ensures done { result ≡ DONE → IfSome txn.old.value (λ t. IfSome txn.new.value (GoesBack level t)) }
    ensures missing { IfSome txn.old.value (λ t. result ≡ MISSING ↔ length t.marks ≤ level) }
    ensures kept { result ≢ DONE → txn.new.value ≡ txn.old.value }
{
    let mut open = take(alloc, txn);
    let code = open.back_to(level);
    put(txn, open);
    code
}

/// Forgets the mark of a level and those after it. The writes stay.
#[unsafe(no_mangle)]
pub extern "C" fn pdtr_release(alloc: Global, txn: &mut Transaction, level: usize) -> u32
    requires { IsSome txn.old.value }
    ensures held { IsSome txn.new.value }
    ensures told { IfSome txn.old.value (λ t. result ≡ cond (nat_lt level (length t.marks)) DONE MISSING) }
    ensures marks { IfSome txn.old.value (λ t. IfSome txn.new.value (λ n. n ≡ released level t)) }
{
    let mut open = take(alloc, txn);
    let code = open.release(level);
    put(txn, open);
    code
}
