//! Opening a manager over an image and the journal of the commits since then.
ghost use Rattle.std.specs.Prelude.{◌≡◌, ◌≢◌, ◌<◌, ◌^◌, ◌+◌, false, IfErr, IfOk, IfSome, IsSome, map};
ghost use Rattle.inputs.specs.Input.{IsFaultOf};
ghost use Rattle.inputs.specs.declared.fault.TableFault.TheVariants as table_fault;
ghost use Rattle.manager.specs.Managed.{newest_number};
ghost use Rattle.pdt_c.specs.Opening.{rule_of};
ghost use Rattle.pdt_c.specs.Reopening.{IsImageIn, IsImageUnder, IsRefusal, IsRemadeOf, IsReopenedOn, IsUnder, IsUnmade};
ghost use Rattle.pdt_c.specs.declared.codes.TheConstants.{BAD_LIMIT, DONE, ROT, TOO_MANY_ROWS};

use crate::calls::opening::rule_of;
use crate::codes::{DONE, NO_MEMORY, code_of_reading, code_of_recovery, code_of_table};
use crate::handles::journal_frames;
use crate::handles::journal_frames::JournalFrames;
use crate::handles::store::{Store, put};
use devices::{StoredImage, read_store};
use inputs::load_table;
use manager::Manager;
use replay::{Image, Limits, ReadFrames, Recovered, recover_read};
use stable::StableTable;
use std::alloc::Global;
use values::Schema;

/// What was reopened, or why nothing was.
#[repr(C)]
#[derive(Clone, Copy)]
pub struct Reopened {
    /// How many bytes of the frames are whole: a journal that goes on is cut here first.
    pub whole: u64,
    /// The number of the newest commit.
    pub newest: u64,
    /// The commit that a fault names; 0 where it names none.
    pub fault: u64,
}

/// A manager that was opened anew, and how many bytes of the frames are whole.
#[derive(Drop)]
struct Reopening {
    manager: Box<Manager>,
    whole: usize,
}

/// Why no manager is opened: a code, and the commit that it names, or 0.
#[derive(Clone, Copy)]
struct Refusal {
    code: u32,
    commit: u64,
}

/// Opens a manager over the image that columns store, which so many commits made, and the frames of a journal that were read,
/// into a handle that holds nothing: each whole frame since the image is made again by its part of this table, in the time of the
/// frames that have one. The header is a text that begins with the names and the types of the columns. The bytes of the frames are
/// those that were read. Nothing that is stored changes.
#[unsafe(no_mangle)]
pub extern "C" fn pdtr_reopen(
    alloc: Global,
    header: &[u8],
    columns: &[&[u8]],
    recent: usize,
    row_limit: u64,
    by_row: bool,
    number: u64,
    table: u32,
    read: &mut JournalFrames,
    frames: &[u8],
    reopened: &mut Reopened,
    store: &mut Store,
) -> u32
    requires read { IsSome read.old.value }
    requires same { IfSome read.old.value (λ r. frames.now ≡ r.bytes) }

    // Whatever the bytes are, it is the stored image with the frames since then; and wherever a crash fell, it is the table
    // after the first commits, as many as were safe, or more.
    ensures done { result ≡ DONE → IfSome read.old.value (λ r. IfSome store.new.value (IsReopenedOn header.now (map (λ c. c.now) columns.now)
        row_limit recent (rule_of by_row) number table r.seed r.base r.bytes reopened.new.whole)) }
    ensures newest { result ≡ DONE → IfSome store.new.value (λ m. reopened.new.newest ≡ newest_number m) }
    ensures held { result ≡ DONE → IsSome store.new.value }

    // No rot and no gap is passed over, and each code has its cause.
    ensures refused { result ≢ DONE → IfSome read.old.value (λ r. IsRefusal header.now (map (λ c. c.now) columns.now) row_limit recent
        number table r.seed r.base r.bytes result reopened.new.fault) }
    ensures kept { result ≢ DONE → store.new.value ≡ store.old.value }
    ensures lent { read.new.value ≡ read.old.value }
{
    let limits = Limits {
        row_limit,
        recent,
        conflicts: rule_of(by_row),
    };
    let given = journal_frames::take(alloc, read);
    let found = reopen(
        alloc, header, columns, number, limits, table, &given, frames,
    );
    journal_frames::put(read, given);
    match found {
        Ok(reopening) => {
            let Reopening { manager, whole } = reopening;
            *reopened = Reopened {
                whole: whole as u64,
                newest: manager.version().number(),
                fault: 0,
            };
            put(store, manager);
            DONE
        }
        Err(refusal) => {
            *reopened = Reopened {
                whole: 0,
                newest: 0,
                fault: refusal.commit,
            };
            refusal.code
        }
    }
}

/// The manager over the stored image and the frames since then.
fn reopen(
    alloc: Global,
    header: &[u8],
    columns: &[&[u8]],
    number: u64,
    limits: Limits,
    table: u32,
    read: &ReadFrames,
    frames: &[u8],
) -> Result<Reopening, Refusal>
    requires same { frames.now ≡ read.now.bytes }
    ensures ok { IfOk result (λ r. IsReopenedOn header.now (map (λ c. c.now) columns.now) limits.row_limit limits.recent limits.conflicts
        number table read.now.seed read.now.base read.now.bytes r.whole r.manager.value) }
    ensures err { IfErr result (λ e. IsRefusal header.now (map (λ c. c.now) columns.now) limits.row_limit limits.recent number table
        read.now.seed read.now.base read.now.bytes e.code e.commit) }
{
    let image = match image_in(alloc, header, columns) {
        Ok(image) => Image {
            table: image,
            number,
        },
        Err(code) => return Err(Refusal { code, commit: 0 }),
    };
    remade(alloc, image, limits, table, read, frames)
}

/// The manager of an image, with the commits since then made again.
fn remade(
    alloc: Global,
    image: Image,
    limits: Limits,
    table: u32,
    read: &ReadFrames,
    frames: &[u8],
) -> Result<Reopening, Refusal>
    requires same { frames.now ≡ read.now.bytes }
    ensures ok { IfOk result (λ r. IsRemadeOf image.table image.number table read.now.seed read.now.base read.now.bytes
        r.whole r.manager.value) }
    ensures under { IfOk result (λ r. IsUnder limits.row_limit limits.recent limits.conflicts r.manager.value) }
    ensures err { IfErr result (λ e. IsUnmade image.table limits.row_limit limits.recent image.number table read.now.seed
        read.now.base read.now.bytes e.code e.commit) }
{
    match recover_read(alloc, image, limits, table, read, frames) {
        Ok(recovered) => counting(alloc, recovered),
        Err(fault) => {
            let (code, commit) = code_of_recovery(fault);
            Err(Refusal { code, commit })
        }
    }
}

/// The image that columns store under the schema of a header.
fn image_in(alloc: Global, header: &[u8], columns: &[&[u8]]) -> Result<StableTable, u32>
    ensures ok { IfOk result (λ image. IsImageIn header.now (map (λ c. c.now) columns.now) image) }
    ensures err { IfErr result (λ code. (code ≢ DONE) × (code < ROT) × (code ≢ BAD_LIMIT)) }
    ensures full { IfErr result (λ code. code ≡ TOO_MANY_ROWS → IsFaultOf header.now table_fault.TooManyRows) }
{
    let empty = match load_table(alloc, header) {
        Ok(table) => table,
        Err(fault) => return Err(code_of_table(fault)),
    };
    image_under(alloc, empty.schema(), columns)
}

/// The image that columns store under a schema.
fn image_under(alloc: Global, schema: &Schema, columns: &[&[u8]]) -> Result<StableTable, u32>
    ensures ok { IfOk result (λ image. IsImageUnder schema.now (map (λ c. c.now) columns.now) image) }
    ensures err { IfErr result (λ code. (code ≢ DONE) × (code < ROT) × (code ≢ BAD_LIMIT) × (code ≢ TOO_MANY_ROWS)) }
{
    match read_store(alloc, schema, columns) {
        Ok(image) => {
            let StoredImage {
                generation: _generation,
                table,
            } = image;
            Ok(table)
        }
        Err(fault) => Err(code_of_reading(fault)),
    }
}

/// The recovered manager, which keeps no records.
fn counting(alloc: Global, recovered: Recovered) -> Result<Reopening, Refusal>
    ensures ok { IfOk result (λ r. (r.manager.value ≡ record recovered.manager { keeps = false }) × (r.whole ≡ recovered.whole)) }
    ensures err { IfErr result (λ e. e ≡ record { code = NO_MEMORY; commit = 0 }) }
{
    let Recovered { manager, whole } = recovered;
    let mut manager = manager;
    manager.count_only();
    match Box::new(alloc, manager) {
        Ok(manager) => Ok(Reopening { manager, whole }),
        Err(_) => Err(Refusal {
            code: NO_MEMORY,
            commit: 0,
        }),
    }
}
