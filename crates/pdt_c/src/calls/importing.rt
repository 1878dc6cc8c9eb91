//! Finding how many commits had made the newest image of a store that the program has made, with its columns and their marks.
ghost use Rattle.std.specs.Prelude.{◌≡◌, ◌≢◌, ◌≤◌, ◌<◌, ◌^◌, ◌+◌, IfErr, IfOk, map};
ghost use Rattle.journal.specs.Header.{seed_of};
ghost use Rattle.journal.specs.Reading.{read_of};
ghost use Rattle.pdt_c.specs.Importing.{IsMarkedIn, IsNumberOf, IsStoredIn, IsUnmarked, IsUnstoredIn, IsUntold};
ghost use Rattle.pdt_c.specs.declared.codes.TheConstants.{BAD_STORE, DONE, ROT};

use crate::codes::{DONE, GAP, NO_COLUMN, code_of_columns, code_of_marks, code_of_table};
use devices::{StoredImage, read_store};
use images::image_number;
use inputs::load_table;
use journal::{NUMBER_LIMIT, seed_of};
use std::alloc::Global;
use values::Schema;

/// The newest image of a store, or why it isn't known.
#[repr(C)]
#[derive(Clone, Copy)]
pub struct Marked {
    /// How many commits had made it.
    pub number: u64,
    /// The column that a fault of the columns names, or 64; the mark that one of the marks names, or 0.
    pub place: u64,
}

/// Why the number of an image isn't told: a code, and the column or the mark that it is about.
#[derive(Clone, Copy)]
struct Untold {
    code: u32,
    place: u64,
}

/// Tells how many commits had made the newest image that columns store, by the frames of a journal of marks behind `base`. The
/// header is a text that begins with the names and the types of the columns.
#[unsafe(no_mangle)]
pub extern "C" fn pdtr_marked(
    alloc: Global,
    header: &[u8],
    columns: &[&[u8]],
    salt: u64,
    base: u64,
    frames: &[u8],
    marked: &mut Marked,
) -> u32
    // It is the number of the generation that the columns store, and no damaged mark is passed over.
    ensures done { result ≡ DONE → IsMarkedIn header.now (map (λ c. c.now) columns.now) (seed_of salt) base frames.now marked.new.number }

    // What is told is the first fault, with its column or its mark.
    ensures refused { result ≢ DONE → IsUntold header.now (map (λ c. c.now) columns.now) (seed_of salt) base frames.now result
        marked.new.place }
{
    match number_in(alloc, header, columns, salt, base, frames) {
        Ok(number) => {
            *marked = Marked { number, place: 0 };
            DONE
        }
        Err(untold) => {
            *marked = Marked {
                number: 0,
                place: untold.place,
            };
            untold.code
        }
    }
}

/// The number of the newest image.
fn number_in(
    alloc: Global,
    header: &[u8],
    columns: &[&[u8]],
    salt: u64,
    base: u64,
    frames: &[u8],
) -> Result<u64, Untold>
    ensures ok { IfOk result (IsMarkedIn header.now (map (λ c. c.now) columns.now) (seed_of salt) base frames.now) }
    ensures err { IfErr result (λ e. IsUntold header.now (map (λ c. c.now) columns.now) (seed_of salt) base frames.now e.code e.place) }
{
    match image_in(alloc, header, columns) {
        Ok(image) => number_by(alloc, salt, base, frames, image.generation),
        Err(untold) => Err(untold),
    }
}

/// The image that columns store under the schema of a header.
fn image_in(alloc: Global, header: &[u8], columns: &[&[u8]]) -> Result<StoredImage, Untold>
    ensures ok { IfOk result (λ image. IsStoredIn header.now (map (λ c. c.now) columns.now)
        (record { generation = image.generation; table = image.table })) }
    ensures err { IfErr result (λ e. (e.code ≢ DONE) × (e.code < ROT)
        × (e.code ≡ BAD_STORE → IsUnstoredIn header.now (map (λ c. c.now) columns.now) e.code e.place)) }
{
    let empty = match load_table(alloc, header) {
        Ok(table) => table,
        Err(fault) => {
            return Err(Untold {
                code: code_of_table(fault),
                place: NO_COLUMN,
            });
        }
    };
    match read_store(alloc, empty.schema(), columns) {
        Ok(image) => Ok(image),
        Err(fault) => {
            let (code, place) = code_of_columns(fault);
            Err(Untold { code, place })
        }
    }
}

/// The number of a generation, by the marks of a journal.
fn number_by(
    alloc: Global,
    salt: u64,
    base: u64,
    frames: &[u8],
    generation: u32,
) -> Result<u64, Untold>
    ensures ok { IfOk result (IsNumberOf generation (read_of (seed_of salt) (base + 1) frames.now)) }
    ensures err { IfErr result (λ e. (e.code ≢ DONE) × (e.code ≢ BAD_STORE)
        × (base < 2 ^ 63 → ROT ≤ e.code → IsUnmarked base generation (read_of (seed_of salt) (base + 1) frames.now) e.code e.place)) }
{
    if base >= NUMBER_LIMIT {
        return Err(Untold {
            code: GAP,
            place: 0,
        });
    }
    match image_number(alloc, seed_of(salt), base, frames, generation) {
        Ok(number) => Ok(number),
        Err(fault) => {
            let (code, place) = code_of_marks(fault);
            Err(Untold { code, place })
        }
    }
}
