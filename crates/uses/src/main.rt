//! The library in a few lines, as the README shows it: a table is opened, a transaction sets a cell and commits, and the
//! newest table is shown.
#![tactic(auto)]

use inputs::load_table;
use manager::Manager;
use merge::Layers;
use model::CommitReply;
use model::ConflictRule::ByColumn;
use values::limits::MAX_ROWS;
use values::{Key, NoMemory, Value};

const TABLE: &[u8] = b"id:int:key,name:text,qty:int\n10,Ann,1\n20,Bob,2\n";

fn main(rt: HostRuntime) -> anyhow::Result<()> {
    let alloc = rt.alloc();
    let mut manager = Manager::open(alloc, load_table(alloc, TABLE)?, 64, MAX_ROWS, ByColumn)?;
    set_quantity(&rt, &mut manager)?;
    show(&rt, &manager.newest()) // the layers of the newest table, lent
}

/// Sets a cell in a transaction of its own.
fn set_quantity(rt: &HostRuntime, manager: &mut Manager) -> anyhow::Result<()> {
    let key = Key::new(vec![in rt.alloc(); Value::Int(10)]?);
    let mut txn = manager.begin(0)?; // client 0, over the newest table
    let reply = txn.set(&key, 2, Value::Int(7)); // Ok(WriteReply::Done), or Missing
    match manager.commit(txn) {
        Ok(CommitReply::Committed(number)) => println!(rt; "{reply:?}, commit {number}")?,
        Ok(refused) => println!(rt; "{refused:?}")?, // Conflict, TooOld or Full
        Err((txn, NoMemory)) => txn.abort(), // nothing has changed
    }
    Ok(())
}

/// Prints each row's cells: they are merged by position, and no key is read.
fn show(rt: &HostRuntime, newest: &Layers<'_>) -> anyhow::Result<()> {
    for row in newest.scan(0, newest.len()) {
        for col in 0..row.width() {
            print!(rt; "{:?} ", row.value(col))?;
        }
        println!(rt; "")?;
    }
    Ok(())
}
