//! The header of a table's columns, as a text that is read again where an image of the table is opened.
ghost use Rattle.std.specs.Prelude.{◌≡◌, ◌≢◌, IfErr, IfOk, IfSome, IsSome};
ghost use Rattle.pdt_c.specs.Headers.{HasOtherName, IsHeaderOf};
ghost use Rattle.pdt_c.specs.Stored.{bytes_at};
ghost use Rattle.pdt_c.specs.declared.codes.TheConstants.{BAD_TABLE, DONE};

use crate::calls::image_bytes::one_column;
use crate::codes::{BAD_TABLE, DONE, NO_MEMORY};
use crate::handles::image::{Columns, Image};
use crate::handles::store::Store;
use crate::handles::{image, store};
use headers::{HeaderFault, spell_header};
use std::alloc::Global;
use values::{NoMemory, Schema};

/// Puts the header of the table's columns into a handle that holds nothing, as its column 0. The store is as it was. It is refused with
/// `BAD_TABLE` where a column's name is none that a header says.
#[unsafe(no_mangle)]
pub extern "C" fn pdtr_header(alloc: Global, store: &mut Store, header: &mut Image) -> u32
    requires { IsSome store.old.value }
    ensures kept { store.new.value ≡ store.old.value }

    // What an opening reads of it is the columns of the table, without a row.
    ensures done { result ≡ DONE → IfSome store.old.value (λ m. IfSome header.new.value (λ h. IsHeaderOf m.schema (bytes_at h 0))) }
    ensures held { result ≡ DONE → IsSome header.new.value }
    ensures bad { result ≡ BAD_TABLE → IfSome store.old.value (λ m. HasOtherName m.schema) }
    ensures refused { result ≢ DONE → header.new.value ≡ header.old.value }
{
    let manager = store::take(alloc, store);
    let spelt = spell(alloc, manager.newest().schema());
    store::put(store, manager);
    match spelt {
        Ok(columns) => {
            image::put(header, columns);
            DONE
        }
        Err(code) => code,
    }
}

/// The header of a schema.
fn spell(alloc: Global, schema: &Schema) -> Result<Box<Columns>, u32>
    ensures ok { IfOk result (λ h. IsHeaderOf schema.now (bytes_at h.value 0)) }
    ensures err { IfErr result (λ code. code ≢ DONE) }
    ensures bad { IfErr result (λ code. code ≡ BAD_TABLE → HasOtherName schema.now) }
{
    match spell_header(alloc, schema) {
        Ok(text) => match one_column(alloc, text) {
            Ok(columns) => Ok(columns),
            Err(NoMemory) => Err(NO_MEMORY),
        },
        Err(HeaderFault::BadName(_)) => Err(BAD_TABLE),
        Err(HeaderFault::NoMemory) => Err(NO_MEMORY),
    }
}
