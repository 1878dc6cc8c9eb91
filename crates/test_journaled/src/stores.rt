//! Runs over journals and columns in memory, and what is recovered of the bytes that they leave.
use crate::texts::TABLE;
use devices::{ColumnDevice, ReadFault, Store, StoreFault, have_failed};
use images::ImagesFault;
use journal::{Header, write_header};
use journaled::{Journals, StoreBytes, recover_journaled, run_journaled};
use logging::{Appender, FailingJournal, Failure, LeftJournal, MemJournal};
use model::ConflictRule;
use pdtcli::{OpenOptions, Refusal, open_texts, recover};
use replay::RecoverFault;
use std::alloc::Global;
use std::io::Write;
use std::sync::{Arc, OnceLock};
use std::test::Fail;
use test_fixtures::{Slot, all_left_in, device_over, empty_slots, item_columns};
use values::NoMemory;
use values::limits::MAX_ROWS;

/// The failure of a column's device.
pub(crate) type ColumnFailure = test_fixtures::Failure;

/// The salt of the journal of the commits.
pub(crate) const COMMITS_SALT: u64 = 0x0123_4567_89ab_cdef;

/// The salt of the journal of the images' marks.
pub(crate) const IMAGES_SALT: u64 = 0x1122_3344_5566_7788;

/// The name of each store here.
pub(crate) const STORE: u64 = 0xfedc_ba98_7654_3210;

/// What a run is opened with.
const USUAL: OpenOptions = OpenOptions {
    recent: 64,
    limit: MAX_ROWS,
    conflicts: ConflictRule::ByColumn,
};

/// How many columns a table here has.
const COLUMNS: usize = 3;

/// Where a journal leaves its bytes.
type JournalSlot = Arc<OnceLock<LeftJournal>>;

/// Where the files of a store leave their bytes.
#[derive(Drop)]
pub(crate) struct Slots {
    columns: Vec<Slot>,
    images: JournalSlot,
    commits: JournalSlot,
}

/// What fails in a run.
#[derive(Clone, Copy)]
pub(crate) struct Failures {
    pub(crate) commits: Failure,
    pub(crate) images: Failure,
    pub(crate) column: Option<ColumnFailure>,
}

/// What is run, and over what.
#[derive(Clone, Copy)]
pub(crate) struct Setting<'a> {
    pub(crate) table: &'a [u8],
    pub(crate) script: &'a [u8],
    /// Where the devices leave their bytes.
    pub(crate) slots: &'a Slots,
    pub(crate) failures: Failures,
    /// The generation of the first image.
    pub(crate) first: u32,
}

/// Nothing fails.
pub(crate) const NO_FAILURE: Failures = Failures {
    commits: Failure::Sync { turn: 0 },
    images: Failure::Sync { turn: 0 },
    column: None,
};

/// What was recovered, and what was written of it.
#[derive(Drop)]
pub(crate) struct Recovery {
    answer: Result<u8, Refusal>,
    out: Vec<u8>,
}

impl Slots {
    /// Slots with nothing in them.
    pub(crate) fn new(alloc: Global) -> Result<Slots, NoMemory> {
        Ok(Slots {
            columns: empty_slots(alloc, COLUMNS)?,
            images: Arc::new(alloc, OnceLock::new())?,
            commits: Arc::new(alloc, OnceLock::new())?,
        })
    }

    /// The bytes of the journal of the commits.
    pub(crate) fn commits(&self) -> &[u8] {
        bytes_in(&self.commits)
    }

    /// Those of them that were safe.
    pub(crate) fn safe_commits(&self) -> &[u8] {
        safe_in(&self.commits)
    }

    /// The bytes of the images' marks.
    pub(crate) fn marks(&self) -> &[u8] {
        bytes_in(&self.images)
    }

    /// Those of them that were safe.
    pub(crate) fn safe_marks(&self) -> &[u8] {
        safe_in(&self.images)
    }

    /// The bytes of the columns.
    pub(crate) fn columns(&self, alloc: Global) -> Result<Vec<&[u8]>, NoMemory> {
        all_left_in(alloc, self.columns.as_slice())
    }

    /// What is recovered of all that was left.
    pub(crate) fn recovered(&self, alloc: Global) -> Result<Recovery, Fail> {
        self.recovered_with(alloc, self.marks(), self.commits())
    }

    /// What is recovered of the columns with these bytes of the journals.
    pub(crate) fn recovered_with(
        &self,
        alloc: Global,
        images: &[u8],
        commits: &[u8],
    ) -> Result<Recovery, Fail> {
        let columns = self.columns(alloc)?;
        recovered_of(alloc, columns.as_slice(), images, commits)
    }

    /// What is recovered of the columns alone.
    pub(crate) fn stored(&self, alloc: Global) -> Result<Recovery, Fail> {
        let columns = self.columns(alloc)?;
        let schema = item_columns(alloc)?;
        let mut out = Vec::new(alloc);
        let answer = recover(alloc, &schema, columns.as_slice(), &mut out);
        Ok(Recovery { answer, out })
    }
}

impl Recovery {
    /// Whether the table of this text was recovered.
    pub(crate) fn is_table(&self, text: &str) -> bool {
        self.answer == Ok(0) && self.out.as_slice() == text.as_bytes()
    }

    /// Whether a growth was refused.
    pub(crate) fn has_no_memory(&self) -> bool {
        matches!(
            self.answer,
            Err(
                Refusal::Columns(ReadFault::NoMemory)
                    | Refusal::Images(ImagesFault::NoMemory)
                    | Refusal::Commits(RecoverFault::NoMemory)
                    | Refusal::Output(_)
            )
        )
    }

    /// Whether it was refused so, and nothing written.
    pub(crate) fn is_refused(&self, refusal: Refusal) -> bool {
        self.answer == Err(refusal) && self.out.is_empty()
    }
}

/// What is recovered of these bytes.
pub(crate) fn recovered_of(
    alloc: Global,
    columns: &[&[u8]],
    images: &[u8],
    commits: &[u8],
) -> Result<Recovery, Fail> {
    let schema = item_columns(alloc)?;
    let mut out = Vec::new(alloc);
    let files = StoreBytes {
        columns,
        images,
        commits,
    };
    let answer = recover_journaled(alloc, &schema, files, &mut out);
    Ok(Recovery { answer, out })
}

/// Runs the script over the table of the tests.
pub(crate) fn run_script<W: Write>(
    alloc: Global,
    script: &[u8],
    slots: &Slots,
    failures: Failures,
    out: &mut W,
) -> Result<u8, Refusal> {
    let setting = Setting {
        table: TABLE,
        script,
        slots,
        failures,
        first: 1,
    };
    run_setting(alloc, setting, out)
}

/// Runs a script over a table, over devices of which some fail, and which leave their bytes in the slots.
pub(crate) fn run_setting<W: Write>(
    alloc: Global,
    setting: Setting<'_>,
    out: &mut W,
) -> Result<u8, Refusal> {
    let column = setting.failures.column;
    let mut devices: Vec<Box<dyn ColumnDevice + Send>> = Vec::new(alloc);
    for (device, slot) in setting.slots.columns.iter().enumerate() {
        devices.push(Box::new(alloc, device_over(alloc, slot, device, column)?)?)?;
    }
    run_over(alloc, setting, devices, out)
}

/// The same over these devices.
fn run_over<W: Write>(
    alloc: Global,
    setting: Setting<'_>,
    devices: Vec<Box<dyn ColumnDevice + Send>>,
    out: &mut W,
) -> Result<u8, Refusal> {
    if have_failed(devices.as_slice()) {
        return Err(Refusal::Store(StoreFault::StoreFailed));
    }
    let opened = open_texts(alloc, Ok(setting.table), Ok(setting.script), USUAL)?;
    let store = Store::new(alloc, devices, opened.schema(), setting.first)?;
    let journals = journals_over(alloc, setting.slots, setting.failures)?;
    let (status, _run) = run_journaled(alloc, opened, journals, store, setting.first, out)?;
    Ok(status)
}

/// The journals of a run.
fn journals_over(
    alloc: Global,
    slots: &Slots,
    failures: Failures,
) -> Result<Journals<FailingJournal>, Refusal> {
    Ok(Journals {
        commits: journal_over(alloc, &slots.commits, COMMITS_SALT, failures.commits)?,
        images: journal_over(alloc, &slots.images, IMAGES_SALT, failures.images)?,
    })
}

/// The bytes of a journal's header, of the store of this name.
pub(crate) fn header_of(
    alloc: Global,
    salt: u64,
    store: u64,
    base: u64,
) -> Result<Vec<u8>, Refusal> {
    let mut bytes = Vec::new(alloc);
    if let Some(header) = Header::new(salt, store, base) {
        write_header(&header, &mut bytes)?;
    }
    Ok(bytes)
}

/// A journal over the slot, behind the header of this salt.
fn journal_over(
    alloc: Global,
    slot: &JournalSlot,
    salt: u64,
    failure: Failure,
) -> Result<Appender<FailingJournal>, Refusal> {
    let Some(header) = Header::new(salt, STORE, 0) else {
        return Err(Refusal::CannotMake);
    };
    let front = header_of(alloc, salt, STORE, 0)?;
    let device = FailingJournal::new(MemJournal::new(front, slot.clone()?), failure);
    Ok(Appender::new(alloc, device, header.seed()))
}

/// All bytes that a journal left.
fn bytes_in(slot: &JournalSlot) -> &[u8] {
    match slot.get() {
        Some(left) => left.bytes.as_slice(),
        None => &[],
    }
}

/// Those of them that were safe.
fn safe_in(slot: &JournalSlot) -> &[u8] {
    match slot.get() {
        Some(left) => match left.bytes.as_slice().get(..left.safe) {
            Some(safe) => safe,
            None => &[],
        },
        None => &[],
    }
}
