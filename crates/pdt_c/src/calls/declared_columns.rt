//! The declared columns of a table, as the text of their file.
ghost use Rattle.std.specs.Prelude.{◌≡◌, ◌≢◌, ◌⊎◌, ℕ, [], Err, IfOk, IfSome, IsSome, List, get_or, map};
ghost use Rattle.std.specs.List.{AllByRecursion};
ghost use Rattle.manifest.specs.Types.{AreFormats, IsFormat, formats_now, types_spelling};
ghost use Rattle.manifest.specs.declared.fault.WriteFault.TheVariants as write_fault;
ghost use Rattle.pdt_c.specs.Stored.{bytes_at};
ghost use Rattle.pdt_c.specs.Told.{IsPut};
ghost use Rattle.pdt_c.specs.declared.codes.TheConstants.{DONE, NO_MEMORY, ROT, SHAPE};

use crate::calls::image_bytes::one_column;
use crate::codes::{DONE, NO_MEMORY, ROT, SHAPE};
use crate::handles::image;
use crate::handles::image::{Columns, Image};
use crate::text_fault::put as put_bytes;
use manifest::{ManifestFault, WriteFault, read_types, write_types};
use std::alloc::Global;
use values::NoMemory;

/// Puts the format of one of so many columns where there is room, by the bytes of a whole file, and says how many bytes it has: 0 where
/// the column isn't declared. `ROT` where the bytes spell no formats of so many columns.
#[unsafe(no_mangle)]
pub extern "C" fn pdtr_types_read(
    alloc: Global,
    bytes: &[u8],
    width: usize,
    column: usize,
    format: &mut [u8],
    len: &mut usize,
) -> u32
    ensures code { (result ≡ DONE) ⊎ ((result ≡ ROT) ⊎ (result ≡ NO_MEMORY)) }

    // What is read is spelt so.
    ensures done { result ≡ DONE → (fs : List (List ℕ)) × AreFormats width fs × (bytes.now ≡ types_spelling fs)
        × IsPut len.new format.new (get_or fs column []) }

    // What is spelt so isn't damaged.
    ensures rot { result ≡ ROT → (fs : List (List ℕ)) → AreFormats width fs → bytes.now ≢ types_spelling fs }
    ensures refused { result ≢ DONE → (len.new ≡ len.old) × (format.new ≡ format.old) }
{
    match read_types(alloc, width, bytes) {
        Ok(formats) => {
            *len = put_format(formats.as_slice(), column, format);
            DONE
        }
        Err(ManifestFault::Damaged) => ROT,
        Err(ManifestFault::NoMemory) => NO_MEMORY,
    }
}

fn put_format(formats: &[&[u8]], column: usize, out: &mut [u8]) -> usize
    ensures { IsPut result out.new (get_or (formats_now formats.now) column []) }
{
    match formats.get(column) {
        Some(format) => put_bytes(format, out),
        None => 0,
    }
}

/// Puts the bytes of a file that declares columns, each as its format, into a handle that holds nothing, as its column 0. A column whose
/// format has no bytes isn't declared. `SHAPE` where a format has no line.
#[unsafe(no_mangle)]
pub extern "C" fn pdtr_types_bytes(alloc: Global, formats: &[&[u8]], bytes: &mut Image) -> u32
    ensures code { (result ≡ DONE) ⊎ ((result ≡ SHAPE) ⊎ (result ≡ NO_MEMORY)) }
    ensures held { result ≡ DONE → IsSome bytes.new.value }
    ensures spelt { result ≡ DONE → IfSome bytes.new.value (λ b. bytes_at b 0 ≡ types_spelling (formats_now formats.now)) }

    // What is spelt is lawful, and what is lawful is spelt, unless memory runs out.
    ensures lawful { result ≡ DONE → AllByRecursion IsFormat (formats_now formats.now) }
    ensures shape { result ≡ SHAPE → AllByRecursion IsFormat (formats_now formats.now) → ⊥ }
    ensures refused { result ≢ DONE → bytes.new.value ≡ bytes.old.value }
{
    match spell(alloc, formats) {
        Ok(columns) => {
            image::put(bytes, columns);
            DONE
        }
        Err(WriteFault::Unlawful) => SHAPE,
        Err(WriteFault::NoMemory) => NO_MEMORY,
    }
}

/// The bytes of the file.
fn spell(alloc: Global, formats: &[&[u8]]) -> Result<Box<Columns>, WriteFault>
    ensures spelt { IfOk result (λ b. bytes_at b.value 0 ≡ types_spelling (formats_now formats.now)) }
    ensures lawful { IfOk result (λ _. AllByRecursion IsFormat (formats_now formats.now)) }
    ensures only { AllByRecursion IsFormat (formats_now formats.now) → result ≢ Err write_fault.Unlawful }
{
    let bytes = write_types(alloc, formats)?;
    match one_column(alloc, bytes) {
        Ok(columns) => Ok(columns),
        Err(NoMemory) => Err(WriteFault::NoMemory),
    }
}
