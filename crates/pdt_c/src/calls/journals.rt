//! What C writes into a journal, and reads of one: its header, the heads of its frames, and the parts of their payloads.
ghost use Rattle.std.specs.Prelude.{◌≡◌, ◌≤◌, ◌<◌, ◌^◌, ◌⊎◌, ◌↔◌, ◌++◌, IfErr, IfOk, IsTrue, IsFalse, MatchOption, None, Some, length, take};
ghost use Rattle.codec.specs.Fit.{EntriesFit};
ghost use Rattle.codec.specs.declared.fault.SpellFault.TheVariants as spell_fault;
ghost use Rattle.journal.specs.Check.{crc};
ghost use Rattle.journal.specs.Frame.{frame_bytes};
ghost use Rattle.journal.specs.Header.{header_bytes, header_in, header_with, seed_of};
ghost use Rattle.manager.specs.Managed.{IsOwn};
ghost use Rattle.manager.specs.Prepared.{IsPrepared, tree_in};
ghost use Rattle.pdt_c.specs.Journals.{IsAppended, IsLong, IsToldHeader};

use crate::codes::{DONE, NEWER_FORMAT, ROT};
use crate::handles::transaction::OpenTxn;
use codec::{SpellFault, commit_entries_fit, write_part};
use delta::DeltaTree;
use journal::{Frame, Header, crc_from, frame_head, read_header, seed_of, spelt_header};
use manager::{Manager, Prepared};
use segments::is_later_header;
use values::Schema;

/// How many bytes a journal's header has.
const HEADER_BYTES: usize = 36;

/// How many bytes stand in front of a frame's payload.
const HEAD_BYTES: usize = 28;

/// The greatest number of bytes that a frame's payload has.
const MAX_PAYLOAD: usize = u32::MAX as usize;

/// What a journal's header says.
#[repr(C)]
#[derive(Clone, Copy)]
pub struct JournalHeader {
    /// What the seed of its checks is made from.
    pub salt: u64,
    /// The name of the store that it is of.
    pub store: u64,
    /// The number of the commit before its first frame.
    pub base: u64,
}

/// The register of CRC-32C after bytes, from this one on.
#[unsafe(no_mangle)]
pub extern "C" fn pdtr_check(from: u32, bytes: &[u8]) -> u32
    ensures { result ≡ crc from bytes.now }
{
    crc_from(from, bytes)
}

/// Puts the bytes of a header where there is room for them, and says whether it did: there is none of a salt whose seed is
/// 0, or of a base that no commit has. Takes no memory.
#[unsafe(no_mangle)]
pub extern "C" fn pdtr_journal_header(salt: u64, store: u64, base: u64, out: &mut [u8]) -> bool
    ensures put { IsTrue result → MatchOption (header_with salt store base) ⊥ (λ h. take 36 out.new ≡ header_bytes h) }
    ensures none { IsFalse result → (header_with salt store base ≡ None) ⊎ (length out.old < 36) }
    ensures kept { IsFalse result → out.new ≡ out.old }
{
    let Some(header) = Header::new(salt, store, base) else {
        return false;
    };
    if out.len() < HEADER_BYTES {
        return false;
    }
    out[..HEADER_BYTES].copy_from_slice(&spelt_header(&header));
    true
}

/// Gives what the header says that bytes begin with, or why they begin with none: `NEWER_FORMAT` where it is one of a later version whose
/// check is right, and `ROT` for every other fault. Takes no memory.
#[unsafe(no_mangle)]
pub extern "C" fn pdtr_journal_read(bytes: &[u8], header: &mut JournalHeader) -> u32
    ensures { IsToldHeader bytes.now (header_in bytes.now) result header.old header.new }
{
    match read_header(bytes) {
        Ok((found, _)) => {
            *header = JournalHeader {
                salt: found.salt(),
                store: found.store(),
                base: found.base(),
            };
            DONE
        }
        Err(_) if is_later_header(bytes) => NEWER_FORMAT,
        Err(_) => ROT,
    }
}

/// Puts the bytes that stand before the payload of a frame where there is room for them, under the seed of a journal's salt,
/// and says whether it did: a frame has fewer than 2^32 bytes of payload. Takes no memory.
#[unsafe(no_mangle)]
pub extern "C" fn pdtr_frame_head(
    salt: u64,
    number: u64,
    synced: u64,
    payload: &[u8],
    head: &mut [u8],
) -> bool
    ensures put { IsTrue result → take 28 head.new ++ payload.now ≡ frame_bytes (seed_of salt) (record
        { number = number; synced = synced; payload = payload.now }) }
    ensures room { IsTrue result ↔ (28 ≤ length head.old) × (length payload.now < 2 ^ 32) }
    ensures kept { IsFalse result → head.new ≡ head.old }
{
    if head.len() < HEAD_BYTES || payload.len() > MAX_PAYLOAD {
        return false;
    }
    let frame = Frame {
        number,
        synced,
        payload,
    };
    head[..HEAD_BYTES].copy_from_slice(&frame_head(seed_of(salt), &frame));
    true
}

/// Appends the part of what was decided: no bytes where the table is left. At a fault the bytes are as they were.
pub(crate) fn write_decided(
    manager: &Manager,
    begun: &OpenTxn,
    prepared: &Prepared,
    table: u32,
    out: &mut Vec<u8>,
) -> Result<(), SpellFault>
    requires own { IsOwn manager.now begun.now.txn }
    requires prepared { IsPrepared manager.now begun.now.txn prepared.now }
    ensures ok { IfOk result (λ _. IsAppended manager.now.schema table (tree_in prepared.now) out.old.items out.new.items) }
    ensures long { IfErr result (λ fault. fault ≡ spell_fault.TooLong → IsLong (tree_in prepared.now)) }
    ensures err { IfErr result (λ _. out.new.items ≡ out.old.items) }
{
    // These are called for what their clauses tell.
    commit_entries_fit();
    let _history = manager.history();
    let _begin = begun.txn.begin();
    match prepared.tree() {
        Some(tree) => write_tree(manager.newest().schema(), table, tree, out),
        None => Ok(()),
    }
}

/// Appends the part of a commit's tree.
fn write_tree(
    schema: &Schema,
    table: u32,
    tree: &DeltaTree,
    out: &mut Vec<u8>,
) -> Result<(), SpellFault>
    requires fits { EntriesFit schema.now tree.now.entries }
    ensures ok { IfOk result (λ _. IsAppended schema.now table (Some tree.now) out.old.items out.new.items) }
    ensures long { IfErr result (λ fault. fault ≡ spell_fault.TooLong → IsLong (Some tree.now)) }
    ensures err { IfErr result (λ _. out.new.items ≡ out.old.items) }
{
    write_part(schema, table, tree, out)
}
