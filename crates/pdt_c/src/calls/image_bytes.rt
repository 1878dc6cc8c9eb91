//! The bytes that store a table, which C writes to files.
ghost use Rattle.std.specs.Prelude.{◌≡◌, ◌-◌, min, take, drop, length, IsSome, IfOk, IfSome, None};
ghost use Rattle.pdt_c.specs.Stored.{bytes_at};

use crate::byte_column::{ByteColumn, Slot};
use crate::handles::image;
use crate::handles::image::{Columns, Image};
use devices::{ColumnDevice, Store, StoreFault, have_failed};
use once_cell::race::OnceBox;
use stable::StableTable;
use std::alloc::Global;
use std::sync::Arc;
use values::NoMemory;

/// The generation of the one image that a checkpoint's bytes store.
const GENERATION: u32 = 1;

/// The bytes that store a table, those of each column for itself.
pub(crate) fn stored_columns(
    alloc: Global,
    table: &StableTable,
) -> Result<Box<Columns>, StoreFault> {
    let slots = empty_slots(alloc, table.schema().width())?;
    store_in(alloc, table, &slots)?;
    Ok(columns_of(alloc, &slots)?)
}

/// Leaves the bytes of each column in its slot.
fn store_in(alloc: Global, table: &StableTable, slots: &[Slot]) -> Result<(), StoreFault> {
    let mut devices: Vec<Box<dyn ColumnDevice + Send>> = Vec::new(alloc);
    for slot in slots {
        let Ok(()) = devices.push(device_over(alloc, slot)?) else {
            return Err(StoreFault::NoMemory);
        };
    }
    if have_failed(devices.as_slice()) {
        return Err(StoreFault::StoreFailed);
    }
    let mut store = Store::new(alloc, devices, table.schema(), GENERATION)?;
    store.append_image(table)?;
    Ok(())
}

/// A device over a slot.
fn device_over(alloc: Global, slot: &Slot) -> Result<Box<ByteColumn>, NoMemory> {
    Ok(Box::new(alloc, ByteColumn::new(alloc, slot.clone()?)?)?)
}

/// So many slots.
fn empty_slots(alloc: Global, count: usize) -> Result<Vec<Slot>, NoMemory> {
    let mut slots = Vec::with_capacity(alloc, count)?;
    for _ in 0..count {
        slots.push(Arc::new(alloc, OnceBox::new(alloc))?)?;
    }
    Ok(slots)
}

/// The bytes that stand in the slots.
fn columns_of(alloc: Global, slots: &[Slot]) -> Result<Box<Columns>, NoMemory> {
    let mut bytes = Vec::with_capacity(alloc, slots.len())?;
    for slot in slots {
        let column = match slot.get() {
            Some(column) => Vec::from_slice(alloc, column.as_slice())?,
            None => Vec::new(alloc),
        };
        bytes.push(column)?;
    }
    Ok(Box::new(alloc, Columns { bytes })?)
}

/// The bytes of one column.
pub(crate) fn one_column(alloc: Global, bytes: Vec<u8>) -> Result<Box<Columns>, NoMemory>
    ensures { IfOk result (λ columns. bytes_at columns.value 0 ≡ bytes.items) }
{
    let mut columns = Vec::new(alloc);
    columns.push(bytes)?;
    Ok(Box::new(alloc, Columns { bytes: columns })?)
}

/// How many bytes a column has.
#[unsafe(no_mangle)]
pub extern "C" fn pdtr_image_len(alloc: Global, image: &mut Image, col: usize) -> usize
    requires { IsSome image.old.value }
    ensures kept { image.new.value ≡ image.old.value }
    ensures len { IfSome image.old.value (λ c. result ≡ length (bytes_at c col)) }
{
    let columns = image::take(alloc, image);
    let len = match columns.bytes.get(col) {
        Some(column) => column.len(),
        None => 0,
    };
    image::put(image, columns);
    len
}

/// Copies bytes of a column from a place on, and answers how many.
#[unsafe(no_mangle)]
pub extern "C" fn pdtr_image_read(
    alloc: Global,
    image: &mut Image,
    col: usize,
    from: usize,
    out: &mut [u8],
) -> usize
    requires { IsSome image.old.value }
    ensures kept { image.new.value ≡ image.old.value }
    ensures bytes { IfSome image.old.value (λ c. take result out.new ≡ take result (drop from (bytes_at c col))) }

    // All that is there, as far as C's room goes.
    ensures count { IfSome image.old.value (λ c. result ≡ min (length out.old) (length (bytes_at c col) - from)) }
{
    let columns = image::take(alloc, image);
    let count = match columns.bytes.get(col) {
        Some(column) => copy_from(column.as_slice(), from, out),
        None => 0,
    };
    image::put(image, columns);
    count
}

fn copy_from(bytes: &[u8], from: usize, out: &mut [u8]) -> usize
    ensures count { result ≡ min (length out.old) (length bytes.now - from) }
    ensures bytes { take result out.new ≡ take result (drop from bytes.now) }
{
    if from > bytes.len() {
        return 0;
    }
    let rest = &bytes[from..];
    let count = rest.len().min(out.len());
    out[..count].copy_from_slice(&rest[..count]);
    count
}

/// Lets the bytes go.
#[unsafe(no_mangle)]
pub extern "C" fn pdtr_image_close(alloc: Global, image: &mut Image)
    requires { IsSome image.old.value }
    ensures { image.new.value ≡ None }
{
    let _columns = image::take(alloc, image);
}
