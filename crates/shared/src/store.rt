//! What the sessions' manager writes its checkpoints to, as a type parameter: a type that has a promise over an opening
//! can't hold boxed devices.
ghost use Rattle.std.specs.Prelude.{◌≡◌, ◌<◌, ◌^◌, IfErr, MatchBool, MatchResult, OnOk};
ghost use Rattle.manager.specs.Layered.{IsRebuilt};
ghost use Rattle.manager.specs.Managed.{rebuilt_of};
ghost use Rattle.shared.specs.Generations.{IsAnswered, IsUnready};

use devices::Store;
use manager::{CheckpointFault, Manager, Rebuilt};
use std::mem;
use values::Schema;

/// What takes the images of a table: a `Store`.
pub trait ImageStore: Drop {
    ghost use Rattle.std.specs.Prelude.{ℕ};
    ghost use Rattle.values.specs.Shape.{Columns};

    /// The columns that it is for.
    ghost columns: { Self → Columns };

    /// The generation of its next image.
    ghost next: { Self → ℕ };

    /// The columns that it is for, lent.
    fn schema(&self) -> &Schema
        ensures { result.now ≡ columns self.now };

    /// Whether it can take an image. Takes no memory.
    fn is_ready(&self) -> Result<(), CheckpointFault>
        ensures left { OnOk result (next self.now < 2 ^ 32) }
        ensures refused { IfErr result (IsUnready (next self.now)) };

    /// Takes the table of a checkpoint that was prepared, and only then has the manager install it.
    fn take(&mut self, manager: &mut Manager, rebuilt: Rebuilt) -> Result<u32, CheckpointFault>
        requires columns { columns self.old ≡ manager.old.schema }
        requires prepared { IsRebuilt manager.old rebuilt }
        ensures columns { columns self.new ≡ columns self.old }
        ensures manager { MatchResult result (λ _. manager.new ≡ rebuilt_of manager.old) (λ _. manager.new ≡ manager.old) }
        ensures answer { IsAnswered (next self.old) result (next self.new) };
}

impl ImageStore for Store {
    ghost columns = { λ store. store.schema };

    ghost next = { λ store. store.next };

    fn schema(&self) -> &Schema {
        self.schema()
    }

    fn is_ready(&self) -> Result<(), CheckpointFault> {
        match self.ready() {
            Ok(()) => Ok(()),
            Err(fault) => Err(CheckpointFault::of_store(fault)),
        }
    }

    fn take(&mut self, manager: &mut Manager, rebuilt: Rebuilt) -> Result<u32, CheckpointFault> {
        match self.append_image(rebuilt.table()) {
            Ok(generation) => {
                manager.install_checkpoint(rebuilt);
                Ok(generation)
            }
            Err(fault) => Err(CheckpointFault::of_store(fault)),
        }
    }
}

/// Puts a store into the place of one that is for these columns, where it is for them too; else it comes back.
pub(crate) fn exchange<S: ImageStore>(place: &mut S, store: S, columns: &Schema) -> Result<S, S>
    ensures { MatchResult result (λ old. (old ≡ place.old) × (place.new ≡ store) × (S.columns store ≡ columns.now))
        (λ back. (back ≡ store) × (place.new ≡ place.old) × (S.columns store ≡ columns.now → ⊥)) }
{
    if are_same(store.schema(), columns) {
        Ok(mem::replace(place, store))
    } else {
        Err(store)
    }
}

/// Whether two schemas are of the same columns.
fn are_same(one: &Schema, other: &Schema) -> bool
    ensures { MatchBool result (one.now ≡ other.now) (one.now ≡ other.now → ⊥) }
{
    if one.width() != other.width() || one.key_cols() != other.key_cols() {
        return false;
    }
    for col in 0..one.width() {
        if one.column_type(col) != other.column_type(col) || one.name(col) != other.name(col) {
            return false;
        }
    }
    true
}
