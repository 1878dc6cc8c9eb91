//! The shape of a write, which is tested once and before memory is wanted: the same for every client, in whatever way it
//! runs.
ghost use Rattle.std.specs.Prelude.{◌≡◌, IfNone, IfOk, IsTrue, OnOk};
ghost use Rattle.values.specs.Shape.{answer_of};
ghost use Rattle.model.specs.Writes.{write_fits_schema};
ghost use Rattle.inputs.specs.Typed.{is_typed_write};
ghost use Rattle.pdtcli.specs.Run.{write_fault};
ghost use Rattle.pdtcli.specs.Told.{IsToldAs};

use crate::reply::Reply;
use model::Write;
use values::{NoMemory, Schema, ShapeFault};

/// The reply to a write whose shape doesn't fit; none where it fits. Counts and types are those of the schema, as the
/// script was read.
pub(crate) fn refused_shape(schema: &Schema, write: &Write) -> Option<Reply>
    requires typed { IsTrue (is_typed_write schema.now write.now) }
    ensures told { IsToldAs (write_fault schema.now write.now) result }
    ensures fits { IfNone result (IsTrue (write_fits_schema schema.now write.now)) }
{
    match check_shape(schema, write) {
        Ok(()) => None,
        Err(fault) => match fault {
            ShapeFault::KeyColumn => Some(Reply::KeyColumn),
            ShapeFault::TextTooLong(cell) => Some(Reply::TextTooLong(cell)),
            _ => unreachable!(),
        },
    }
}

/// Tests the row, or the key and then the cell.
fn check_shape(schema: &Schema, write: &Write) -> Result<(), ShapeFault>
    ensures fault { result ≡ answer_of (write_fault schema.now write.now) }
    ensures fits { OnOk result (IsTrue (write_fits_schema schema.now write.now)) }
{
    match write {
        Write::Insert(row) => schema.check_row(row),
        Write::Delete(key) => schema.check_key(key),
        Write::Set(key, col, value) => {
            schema.check_key(key)?;
            schema.check_cell(*col, value)
        }
    }
}

/// A copy of a write that fits, to be recorded.
pub(crate) fn copy_of(write: &Write) -> Result<Write, NoMemory>
    ensures { IfOk result (λ copy. copy ≡ write.now) }
{
    Ok(match write {
        Write::Insert(row) => Write::Insert(row.copy()?),
        Write::Delete(key) => Write::Delete(key.copy()?),
        Write::Set(key, col, value) => Write::Set(key.copy()?, *col, value.copy()?),
    })
}
