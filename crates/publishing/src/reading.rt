//! A reader of what is published: a begin copies the newest version, and waits for nobody.
ghost use Rattle.std.specs.Prelude.{◌≡◌, ◌≤◌, IfOk, IfSome, MatchOption, OnErr, Some, None, length};
ghost use mathlib.Core.List.{IsPrefix};
ghost use Rattle.left_right.specs.Sides.{view};
ghost use Rattle.publishing.specs.Lists.{Opened, shown_in, version_in};
ghost use Rattle.txn.specs.Version.{lower_table, table_version};
ghost use Rattle.publishing.specs.Views.{BeginsIf, IsOf};

use crate::published::{Published, Publishing, Sees, View};
use crate::seen::SeenList;
use left_right::reader::Reader;
use txn::Version;

/// One session's reader.
pub type VersionReader = Reader<Published, View, Publishing>;

/// Why there is no version to begin on. Nothing has changed.
#[derive(Clone, Copy, Debug, PartialEq, Eq, Drop)]
pub enum ReadingFault {
    /// Nothing is published any more, or no reader is admitted.
    Ended,
    /// One owner more of the version was refused.
    NoMemory,
}

/// What is published now, copied: it begins with what the reader had seen, and is what it has then seen.
fn look(reader: VersionReader) -> (VersionReader, Result<Published, ReadingFault>)
    ensures found { IfOk result.1 (λ p. BeginsIf (view reader.place) p × (view result.0.place ≡ Some p)) }
    ensures kept { (opening : Opened) → IsOf opening (view reader.place) → IsOf opening (view result.0.place) }
{
    match reader.enter_as::<Sees>() {
        Ok(reading) => match reading.get().copy() {
            Ok(copy) => (reading.leave(), Ok(copy)),
            Err(_) => (reading.leave(), Err(ReadingFault::NoMemory)),
        },
        Err(reader) => (reader, Err(ReadingFault::Ended)),
    }
}

/// The version that is published now, under the layers of its last item, with its list, where that is no shorter than the
/// one seen so far.
///
/// # Errors
///
/// `Ended` where there is no reader, or nothing is published any more, and `NoMemory` where one owner more is refused.
pub fn newest_seen(
    place: &mut Option<VersionReader>,
    list: &mut SeenList,
) -> Result<Version, ReadingFault>
    requires reader { IfSome place.old (λ r. IsOf list.old.opening (view r.place)) }
    ensures reader { IfSome place.new (λ r. IsOf list.old.opening (view r.place)) }
    ensures opening { list.new.opening ≡ list.old.opening }
    ensures seen { IsPrefix list.old.list list.new.list }
    ensures version { IfOk result (λ v. table_version v ≡ version_in list.new.opening.manager list.new.list) }
    ensures within { IfOk result (λ v. length (lower_table v.layers) ≤ list.new.opening.manager.start.limit) }
    ensures shown { IfOk result (λ v. v ≡ shown_in list.new.opening.manager list.new.list) }
    ensures err { OnErr result (list.new ≡ list.old) }
{
    let Some(reader) = place.take() else {
        return Err(ReadingFault::Ended);
    };
    let (reader, found) = look(reader);
    *place = Some(reader);
    let (version, found) = match found {
        Ok(found) => found.into_parts(),
        Err(fault) => return Err(fault),
    };
    let _both = list.longer(&found);
    if found.len() < list.len() {
        return Err(ReadingFault::Ended);
    }
    *list = found;
    Ok(version)
}
