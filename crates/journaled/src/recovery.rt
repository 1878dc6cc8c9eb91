//! A table, recovered from the bytes of a store's files.
ghost use Rattle.std.specs.Prelude.{◌≡◌, false, List, IfErr, IfOk, map};
ghost use Rattle.std.specs.Io.KnownBytes.{Appends};
ghost use Rattle.pdtcli.specs.Output.{image_text};
ghost use Rattle.pdtcli.specs.Refusals.{is_output};
ghost use Rattle.values.specs.declared.limits.TheConstants.{MAX_RECENT_COMMITS, MAX_ROWS};
ghost use Rattle.values.specs.declared.row.Row.{Row};
ghost use Rattle.journaled.specs.Recovery.{IsLost, IsRecovered, pair_now, pair_of};

use crate::journaled::TABLE;
use devices::read_store;
use images::image_number;
use journal::{Header, read_header};
use model::ConflictRule;
use pdtcli::{Refusal, show_image};
use replay::{FrameBytes, Image, Limits, recover};
use std::alloc::Global;
use std::io::Write;
use values::Schema;
use values::limits::{MAX_RECENT_COMMITS, MAX_ROWS};

/// The status of a recovery that is written whole.
const RECOVERED: u8 = 0;

/// The bytes of a store's files, after that of its header.
#[derive(Clone, Copy)]
pub struct StoreBytes<'a> {
    /// Those of its columns, in order.
    pub columns: &'a [&'a [u8]],
    /// Those of its images' marks.
    pub images: &'a [u8],
    /// Those of the journal of its commits.
    pub commits: &'a [u8],
}

/// The journals of a store, each with the bytes after its header.
#[derive(Drop)]
struct Pair<'a> {
    images: Header,
    marks: &'a [u8],
    commits: Header,
    frames: &'a [u8],
}

/// Writes the table that a journaled store has, under a schema, as a table is written: the newest image, and the commits since then
/// made again, up to the last whole frame of the journal. Answers the program's exit status. It changes nothing that is stored, so
/// that it can be made again.
///
/// # Errors
///
/// `ImagesHeader`, `JournalHeader` with the first fault of a journal's header, `OtherStore` where the journals are of two stores,
/// `Columns` with the first fault of the columns, `Images` where the marks don't tell the number of the image, `Commits` where
/// the journal's commits aren't made again: the first of these, and nothing is written then. `Output` where the output is refused,
/// after some of it may have gone out.
pub fn recover_journaled<W: Write>(
    alloc: Global,
    schema: &Schema,
    files: StoreBytes<'_>,
    out: &mut W,
) -> Result<u8, Refusal>
    // Whatever the bytes are, and wherever a crash fell.
    ensures shown { IfOk result (λ status. (rows : List Row)
        × IsRecovered schema.now
        (record {
          columns = map (λ c. c.now) files.entry.columns.now;
          images = files.entry.images.now;
          commits = files.entry.commits.now;
        }) rows
        × Appends (W.contents out.old) (W.contents out.new) (image_text schema.now rows)
        × (status ≡ 0)) }
    ensures refused { IfErr result (IsLost schema.now
        (record {
          columns = map (λ c. c.now) files.entry.columns.now;
          images = files.entry.images.now;
          commits = files.entry.commits.now;
        })) }
    ensures silent { IfErr result (λ refusal. is_output refusal ≡ false → out.new ≡ out.old) }
{
    let pair = pair_of(files.images, files.commits)?;
    let image = read_store(alloc, schema, files.columns)?;
    let (seed, base) = (pair.images.seed(), pair.images.base());
    let number = image_number(alloc, seed, base, pair.marks, image.generation)?;
    let image = Image {
        table: image.table,
        number,
    };
    let frames = FrameBytes {
        seed: pair.commits.seed(),
        base: pair.commits.base(),
        bytes: pair.frames,
    };
    let recovered = recover(alloc, image, limits(), TABLE, frames)?;
    show_image(alloc, schema, &recovered.manager.newest(), out)?;
    Ok(RECOVERED)
}

/// The widest limits: those of the run aren't stored.
fn limits() -> Limits
    ensures row_limit { result.row_limit ≡ MAX_ROWS }
    ensures recent { result.recent ≡ MAX_RECENT_COMMITS }
{
    Limits {
        row_limit: MAX_ROWS,
        recent: MAX_RECENT_COMMITS,
        conflicts: ConflictRule::ByColumn,
    }
}

/// The journals of one store, by their bytes.
///
/// # Errors
///
/// `ImagesHeader`, `JournalHeader` or `OtherStore`.
fn pair_of<'a>(images: &'a [u8], commits: &'a [u8]) -> Result<Pair<'a>, Refusal>
    ensures { pair_now result ≡ pair_of images.entry.now commits.entry.now }
{
    let (marked, marks) = match read_header(images) {
        Ok(read) => read,
        Err(fault) => return Err(Refusal::ImagesHeader(fault)),
    };
    let (logged, frames) = match read_header(commits) {
        Ok(read) => read,
        Err(fault) => return Err(Refusal::JournalHeader(fault)),
    };
    if marked.store() != logged.store() {
        return Err(Refusal::OtherStore);
    }
    Ok(Pair {
        images: marked,
        marks,
        commits: logged,
        frames,
    })
}
