//! The writes of a transaction, by the cells that C gives.
ghost use Rattle.std.specs.Prelude.{◌≡◌, ◌≢◌, ◌⊎◌, IsSome, IfSome, IfOk, IfErr, OnErr};
ghost use Rattle.pdt_c.specs.Cells.{AreGiven};
ghost use Rattle.pdt_c.specs.Writes.{Deletes, Inserts, Sets, SetsCell, key_types};
ghost use Rattle.pdt_c.specs.declared.codes.TheConstants.{NO_MEMORY, SHAPE};

use crate::codes::{SHAPE, code_of_cells, code_of_fault, code_of_reply};
use crate::given::cells::{CellFault, given_cell, given_cells};
use crate::handles::transaction::{Transaction, put, take};
use model::Write;
use std::alloc::Global;
use txn::Txn;
use values::{Key, Row};

/// Inserts a row.
#[unsafe(no_mangle)]
pub extern "C" fn pdtr_insert(
    alloc: Global,
    txn: &mut Transaction,
    numbers: &[i64],
    texts: &[u8],
) -> u32
    requires { IsSome txn.old.value }
    ensures held { IsSome txn.new.value }
    ensures told { result ≢ SHAPE → result ≢ NO_MEMORY → IfSome txn.old.value (λ t. IfSome txn.new.value (λ n.
        Inserts numbers.now texts.now t.txn result n.txn)) }
    ensures marks { IfSome txn.old.value (λ t. IfSome txn.new.value (λ n. n.marks ≡ t.marks)) }
    ensures refused { (result ≡ SHAPE) ⊎ (result ≡ NO_MEMORY) → txn.new.value ≡ txn.old.value }
{
    let mut open = take(alloc, txn);
    let code = insert(alloc, &mut open.txn, numbers, texts);
    put(txn, open);
    code
}

fn insert(alloc: Global, txn: &mut Txn, numbers: &[i64], texts: &[u8]) -> u32
    ensures told { result ≢ SHAPE → result ≢ NO_MEMORY → Inserts numbers.now texts.now txn.old result txn.new }
    ensures refused { (result ≡ SHAPE) ⊎ (result ≡ NO_MEMORY) → txn.new ≡ txn.old }
{
    let cells = match given_cells(alloc, txn.schema().types(), numbers, texts) {
        Ok(cells) => cells,
        Err(fault) => return code_of_cells(fault),
    };
    match txn.attempt(Write::Insert(Row::new(cells))) {
        Ok(reply) => code_of_reply(reply),
        Err(fault) => code_of_fault(fault),
    }
}

/// The key that C gives.
pub(crate) fn given_key(
    alloc: Global,
    txn: &Txn,
    numbers: &[i64],
    texts: &[u8],
) -> Result<Key, CellFault>
    ensures { IfOk result (λ key. AreGiven (key_types txn.now) numbers.now texts.now key) }
{
    let schema = txn.schema();
    match schema.types().get(..schema.key_cols()) {
        Some(types) => Ok(Key::new(given_cells(alloc, types, numbers, texts)?)),
        None => Err(CellFault::Shape),
    }
}

/// Deletes the row of a key.
#[unsafe(no_mangle)]
pub extern "C" fn pdtr_delete(
    alloc: Global,
    txn: &mut Transaction,
    numbers: &[i64],
    texts: &[u8],
) -> u32
    requires { IsSome txn.old.value }
    ensures held { IsSome txn.new.value }
    ensures told { result ≢ SHAPE → result ≢ NO_MEMORY → IfSome txn.old.value (λ t. IfSome txn.new.value (λ n.
        Deletes numbers.now texts.now t.txn result n.txn)) }
    ensures marks { IfSome txn.old.value (λ t. IfSome txn.new.value (λ n. n.marks ≡ t.marks)) }
    ensures refused { (result ≡ SHAPE) ⊎ (result ≡ NO_MEMORY) → txn.new.value ≡ txn.old.value }
{
    let mut open = take(alloc, txn);
    let code = delete(alloc, &mut open.txn, numbers, texts);
    put(txn, open);
    code
}

fn delete(alloc: Global, txn: &mut Txn, numbers: &[i64], texts: &[u8]) -> u32
    ensures told { result ≢ SHAPE → result ≢ NO_MEMORY → Deletes numbers.now texts.now txn.old result txn.new }
    ensures refused { (result ≡ SHAPE) ⊎ (result ≡ NO_MEMORY) → txn.new ≡ txn.old }
{
    let key = match given_key(alloc, txn, numbers, texts) {
        Ok(key) => key,
        Err(fault) => return code_of_cells(fault),
    };
    match txn.attempt(Write::Delete(key)) {
        Ok(reply) => code_of_reply(reply),
        Err(fault) => code_of_fault(fault),
    }
}

/// Sets a cell of the row of a key.
#[unsafe(no_mangle)]
pub extern "C" fn pdtr_set(
    alloc: Global,
    txn: &mut Transaction,
    numbers: &[i64],
    texts: &[u8],
    col: usize,
    number: i64,
    text: &[u8],
) -> u32
    requires { IsSome txn.old.value }
    ensures held { IsSome txn.new.value }
    ensures told { result ≢ SHAPE → result ≢ NO_MEMORY → IfSome txn.old.value (λ t. IfSome txn.new.value (λ n.
        Sets numbers.now texts.now col number text.now t.txn result n.txn)) }
    ensures marks { IfSome txn.old.value (λ t. IfSome txn.new.value (λ n. n.marks ≡ t.marks)) }
    ensures refused { (result ≡ SHAPE) ⊎ (result ≡ NO_MEMORY) → txn.new.value ≡ txn.old.value }
{
    let mut open = take(alloc, txn);
    let code = match given_key(alloc, &open.txn, numbers, texts) {
        Ok(key) => set(alloc, &mut open.txn, key, col, number, text),
        Err(fault) => code_of_cells(fault),
    };
    put(txn, open);
    code
}

fn set(alloc: Global, txn: &mut Txn, key: Key, col: usize, number: i64, text: &[u8]) -> u32
    ensures told { result ≢ SHAPE → result ≢ NO_MEMORY → SetsCell key col number text.now txn.old result txn.new }
    ensures refused { (result ≡ SHAPE) ⊎ (result ≡ NO_MEMORY) → txn.new ≡ txn.old }
{
    let ty = match txn.schema().types().get(col) {
        Some(ty) => *ty,
        None => return SHAPE,
    };
    let cell = match given_cell(alloc, ty, number, text) {
        Ok(cell) => cell,
        Err(fault) => return code_of_cells(fault),
    };
    match txn.attempt(Write::Set(key, col, cell)) {
        Ok(reply) => code_of_reply(reply),
        Err(fault) => code_of_fault(fault),
    }
}
