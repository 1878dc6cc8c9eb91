//! A gate at which the clients' first transactions overlap, and which hands the processor on at each call; and runs by it.
ghost use Rattle.std.specs.Prelude.{◌≡◌};

use devices::{ColumnDevice, Store, have_failed};
use pdtcli::{Gate, Left, OpenOptions, Opened, open_texts, run_clients};
use std::alloc::Global;
use std::sync::Wait;
use std::sync::atomic::{AtomicU64, Ordering};
use std::test::Fail;
use std::thread;
use std::thread::Threads;
use test_fixtures::{Slot, device_over};

/// How often a thread looks whether the others have come.
const MAX_TURNS: u32 = 1_000_000;

/// A table, a script, and how they are opened.
pub(crate) type Texts<'a> = (&'a [u8], &'a [u8], OpenOptions);

/// The devices of a store, one for each column.
pub(crate) type Devices = Vec<Box<dyn ColumnDevice + Send>>;

/// A gate that yields round each call, and before its second call holds each client back until all have made their first.
#[derive(Drop)]
struct Yielding {
    clients: u64,
    /// How many clients have made their first call.
    begun: AtomicU64,
}

impl Yielding {
    /// A gate for so many clients.
    fn new(clients: u64) -> Yielding {
        Yielding {
            clients,
            begun: AtomicU64::new(0),
        }
    }

    /// Yields until all clients have made their first call, for so many turns at most.
    fn wait(&self) {
        for _ in 0..MAX_TURNS {
            if self.begun.load(Ordering::SeqCst) >= self.clients {
                return;
            }
            thread::yield_now();
        }
    }
}

impl Gate for Yielding {
    fn before(&self, _client: u32, call: usize) {
        if call == 1 {
            self.wait();
        }
        thread::yield_now();
    }

    fn after(&self, _client: u32, call: usize) {
        if call == 0 {
            self.begun.fetch_add(1, Ordering::SeqCst);
        }
        thread::yield_now();
    }
}

/// What is left of a run of the script's clients over a table that is opened so, with a slot for each column. All are held
/// at the gate.
pub(crate) fn run_yielding<R: Threads + Wait + Sync>(
    rt: &R,
    alloc: Global,
    texts: Texts<'_>,
    slots: &[Slot],
    clients: u64,
) -> Result<Left, Fail> {
    let mut devices: Devices = Vec::new(alloc);
    for (device, slot) in slots.iter().enumerate() {
        devices.push(Box::new(alloc, device_over(alloc, slot, device, None)?)?)?;
    }
    left_by(rt, alloc, devices, texts, clients)
}

/// The same with a store of these devices.
fn left_by<R: Threads + Wait + Sync>(
    rt: &R,
    alloc: Global,
    devices: Devices,
    (table, script, options): Texts<'_>,
    clients: u64,
) -> Result<Left, Fail> {
    if have_failed(devices.as_slice()) {
        return Err(Fail::new("a device has failed before its first append"));
    }
    let opened = open_texts(alloc, Ok(table), Ok(script), options)?;
    let store = Store::new(alloc, devices, opened.schema(), 1)?;
    left_at_gate(rt, alloc, opened, store, clients)
}

/// The same over what was opened, and this store.
fn left_at_gate<R: Threads + Wait + Sync>(
    rt: &R,
    alloc: Global,
    opened: Opened,
    store: Store,
    clients: u64,
) -> Result<Left, Fail>
    requires script { opened.script.schema ≡ opened.manager.schema }
    requires store { store.schema ≡ opened.manager.schema }
{
    let Opened { manager, script } = opened;
    let gate = Yielding::new(clients);
    let outcome = run_clients(rt, alloc, manager, store, &script, &gate)?;
    Ok(outcome.left)
}
