//! Devices side by side, and the store that has them.
ghost use Rattle.std.specs.Prelude.{◌≡◌, ◌≢◌, ℕ, ◌<◌, ◌≤◌, ◌+◌, ◌^◌, true, false, Err, IfErr, IfOk, IsErrOf, IsOk, MatchResult, length, map, OnOk, OnErr};
ghost use Rattle.devices.specs.Appending.{Appends, MayFollow, Stores, taken_by};
ghost use Rattle.devices.specs.Image.{headers_of};
ghost use Rattle.devices.specs.Ready.{AreReady, AreWhole};
ghost use Rattle.devices.specs.Store.{IsNotMade, StopsAt, appended, have_failed};
ghost use Rattle.devices.specs.Stored.{stored_image};
ghost use Rattle.devices.specs.declared.fault.StoreFault.TheVariants as fault;

use crate::device::{ColumnDevice, DeviceFault};
use crate::fault::StoreFault;
use crate::pieces::{headers_of, pieces_of};
use stable::StableTable;
use std::alloc::Global;
use values::Schema;
use values::limits::MAX_GENERATION;

/// Whether any of the devices has failed. Takes no memory. A store is made only of devices none of which has: where that
/// isn't known of them, it is asked here.
pub fn have_failed<D: ColumnDevice>(devices: &[D]) -> bool
    ensures { result ≡ have_failed (map D.failures devices.now) }
{
    for device in devices {
        if device.failures() > 0 {
            return true;
        }
    }
    false
}

/// Hands each device its piece, in order, up to the first that fails, whose number is the error.
fn append_all<D: ColumnDevice>(devices: &mut [D], pieces: &[Vec<u8>]) -> Result<(), usize>
    requires sound { have_failed (map D.failures devices.old) ≡ false }
    requires even { length pieces.now ≡ length devices.old }
    ensures whole { OnOk result (map D.contents devices.new ≡ appended (map D.contents devices.old) (map (λ p. p.items) pieces.now)) }
    ensures kept { OnOk result (map D.failures devices.new ≡ map D.failures devices.old) }
    ensures stopped { IfErr result (λ i. StopsAt i (map D.contents devices.old) (map (λ p. p.items) pieces.now) (map D.contents devices.new)) }
    ensures failed { OnErr result (have_failed (map D.failures devices.new) ≡ true) }
    ensures within { IfErr result (λ i. i < length devices.old) }
{
    for i in 0..devices.len() {
        match devices[i].append(pieces[i].as_slice()) {
            Ok(()) => {}
            Err(DeviceFault) => return Err(i),
        }
    }
    Ok(())
}

/// Devices, one for each column of a schema, and the generation that the next image will have.
#[derive(Drop)]
pub struct Store {
    devices: Vec<Box<dyn ColumnDevice + Send>>,
    schema: Schema,
    /// 2^32 once all are spent.
    next: u64,
    alloc: Global,
    ghost even: { length devices.items ≡ length schema.types },
    ghost small: { next ≤ 4294967296 },
}

impl Store {
    /// A store over these devices, one for each column of the schema, whose first image has the generation `first`. Each
    /// device takes the header of its column. No device has failed so far. What the devices hold is no bytes, or whole
    /// frames of generations below `first`: images are read from them only then.
    ///
    /// # Errors
    ///
    /// `WrongCount` where there aren't as many devices as columns, `NoMemory`, or `DeviceFailed` with the first device that
    /// fails. The devices are dropped.
    pub fn new(
        alloc: Global,
        devices: Vec<Box<dyn ColumnDevice + Send>>,
        schema: &Schema,
        first: u32,
    ) -> Result<Store, StoreFault>
        requires { have_failed (map (λ b. failures b) devices.items) ≡ false }
        ensures contents { IfOk result (λ store.
            map (λ b. contents b) store.devices.items ≡ appended (map (λ b. contents b) devices.items) (headers_of schema.now.types)) }
        ensures sound { IfOk result (λ store. have_failed (map (λ b. failures b) store.devices.items) ≡ false) }
        ensures next { IfOk result (λ store. store.next ≡ first) }
        ensures schema { IfOk result (λ store. store.schema ≡ schema.now) }

        // Where the devices held whole frames of those types, of earlier generations alone, the image that they store
        // stays, and another may follow.
        ensures stored { IfOk result (λ store. AreWhole first schema.now.types (map (λ b. contents b) devices.items)
            → stored_image schema.now (map (λ b. contents b) store.devices.items) ≡ stored_image schema.now (map (λ b. contents b) devices.items)) }
        ensures ready { IfOk result (λ store. AreWhole first schema.now.types (map (λ b. contents b) devices.items)
            → AreReady first schema.now.types (map (λ b. contents b) store.devices.items)) }
        ensures count { length devices.items ≢ length schema.now.types → result ≡ Err fault.WrongCount }
        ensures refused { IfErr result (IsNotMade (length devices.items) (length schema.now.types)) }
    {
        if devices.len() != schema.width() {
            return Err(StoreFault::WrongCount);
        }
        let headers = headers_of(alloc, schema.types())?;
        let schema = schema.copy()?;
        let mut devices = devices;
        match append_all(&mut devices, &headers) {
            Ok(()) => Ok(Store {
                devices,
                schema,
                next: u64::from(first),
                alloc,
            }),
            Err(i) => Err(StoreFault::DeviceFailed(i)),
        }
    }

    /// Whether the store can take an image: no append has failed, and a generation is left. Takes no memory.
    ///
    /// # Errors
    ///
    /// `StoreFailed` before `GenerationsSpent`.
    pub fn ready(&self) -> Result<(), StoreFault>
        ensures failed { have_failed (map (λ b. failures b) self.now.devices.items) ≡ true → result ≡ Err fault.StoreFailed }
        ensures spent { have_failed (map (λ b. failures b) self.now.devices.items) ≡ false
            → 2 ^ 32 ≤ self.now.next → result ≡ Err fault.GenerationsSpent }
        ensures ok { OnOk result (have_failed (map (λ b. failures b) self.now.devices.items) ≡ false) }
        ensures left { OnOk result (self.now.next < 2 ^ 32) }
        ensures none { have_failed (map (λ b. failures b) self.now.devices.items) ≡ false → self.now.next < 2 ^ 32 → IsOk result }
    {
        if have_failed(&self.devices) {
            return Err(StoreFault::StoreFailed);
        }
        if self.next > u64::from(MAX_GENERATION) {
            return Err(StoreFault::GenerationsSpent);
        }
        Ok(())
    }

    /// The columns that it is for.
    pub fn schema(&self) -> &Schema
        ensures { result.now ≡ self.now.schema }
    {
        &self.schema
    }

    /// Hands each device the piece of its column, in order, and gives the image's generation. All pieces are made before
    /// the first append.
    ///
    /// # Errors
    ///
    /// `StoreFailed` where an earlier append failed, `GenerationsSpent`, `NoMemory`: the devices are as they were. With
    /// `DeviceFailed` the devices before that one have their pieces, it has some beginning of its own, and every later
    /// call answers `StoreFailed`.
    pub fn append_image(&mut self, table: &StableTable) -> Result<u32, StoreFault>
        requires { table.now.schema ≡ self.old.schema }
        ensures answer { let taken = taken_by (λ b. contents b) (λ b. failures b) in
            Appends table.now (taken self.old.devices.items self.old.next) result (taken self.new.devices.items self.new.next) }

        // Where an image may follow what the devices took, they store the table under its generation then; after a failure
        // what they stored before, or that.
        ensures stored { let taken = taken_by (λ b. contents b) (λ b. failures b) in
            MayFollow self.old.schema (taken self.old.devices.items self.old.next)
            → Stores self.old.schema table.now (taken self.old.devices.items self.old.next) result (taken self.new.devices.items self.new.next) }
        ensures ready { let taken = taken_by (λ b. contents b) (λ b. failures b) in
            MayFollow self.old.schema (taken self.old.devices.items self.old.next)
            → MayFollow self.new.schema (taken self.new.devices.items self.new.next) }
        ensures schema { self.new.schema ≡ self.old.schema }
    {
        self.ready()?;
        let generation = self.next as u32;
        let pieces = pieces_of(self.alloc, generation, table)?;
        match append_all(&mut self.devices, &pieces) {
            Ok(()) => {
                self.next += 1;
                Ok(generation)
            }
            Err(i) => Err(StoreFault::DeviceFailed(i)),
        }
    }
}
