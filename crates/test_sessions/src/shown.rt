//! Rows and records as a test names them, compared with those that are read. Takes no memory.
use manager::Manager;
use merge::{MergeScan, RowView};
use model::{CommitReply, Record, WriteReply};
use std::collections::LinkedList;
use test_fixtures::Item;
use values::ValueRef;

/// A record: its client, the number at which it began, and the replies to its writes and to its commit.
pub(crate) type Recorded = (u32, u64, &'static [WriteReply], CommitReply);

/// Whether the row is this one.
pub(crate) fn is_item(view: &RowView<'_>, (id, name, quantity): Item) -> bool {
    view.width() == 3
        && view.value(0) == ValueRef::Int(id)
        && view.value(1) == ValueRef::Text(name)
        && view.value(2) == ValueRef::Int(quantity)
}

/// Whether the row that was looked for is this one, or isn't there in both.
pub(crate) fn is_found(found: Option<RowView<'_>>, due: Option<Item>) -> bool {
    match (found, due) {
        (Some(view), Some(item)) => is_item(&view, item),
        (None, None) => true,
        _ => false,
    }
}

/// Whether these are the rows.
pub(crate) fn are_items(rows: MergeScan<'_>, due: &[Item]) -> bool {
    let mut place = 0_usize;
    for view in rows {
        match due.get(place) {
            Some(item) if is_item(&view, *item) => place = place.wrapping_add(1),
            _ => return false,
        }
    }
    place == due.len()
}

/// Whether these are the rows of the newest table.
pub(crate) fn has_items(manager: &Manager, due: &[Item]) -> bool {
    let newest = manager.newest();
    newest.len() == due.len() as u64 && are_items(newest.scan(0, newest.len()), due)
}

fn is_record(record: &Record, (client, begin, replies, reply): Recorded) -> bool {
    record.client() == client
        && record.begin() == begin
        && record.reply() == reply
        && record.writes().len() == replies.len()
        && record
            .writes()
            .iter()
            .zip(replies.iter())
            .all(|(write, due)| write.1 == *due)
}

/// Whether these are the records.
pub(crate) fn are_records(records: &LinkedList<Record>, due: &[Recorded]) -> bool {
    records.len() == due.len()
        && records
            .iter()
            .zip(due.iter())
            .all(|(record, recorded)| is_record(record, *recorded))
}
