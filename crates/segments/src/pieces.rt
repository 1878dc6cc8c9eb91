//! The files of a journal, behind one another.
ghost use Rattle.std.specs.Prelude.{◌≡◌, Some, IfErr, IfOk, length, map, option_map};
ghost use Rattle.segments.specs.Pieces.{AreNoJournal, IsJoined, are_behind, base_of, frames_of, last_len, piece_now, piece_of, pieces_of};

use crate::fault::JoinFault;
use journal::{NUMBER_LIMIT, read_header, seed_of};
use manifest::ManifestHead;
use std::alloc::Global;
use values::NoMemory;

/// The frames of a file, and the number of the commit before them, where the file has a header.
#[derive(Clone, Copy)]
pub struct Piece<'a> {
    /// The number of the commit before the first frame, as the header says.
    pub base: Option<u64>,
    /// The bytes after the header; all of them, where there is none.
    pub frames: &'a [u8],
}

/// A journal in files.
#[derive(Drop)]
pub struct Joined<'a> {
    /// What each file has, in turn.
    pub pieces: Vec<Piece<'a>>,
    /// The number of the commit before the first frame.
    pub base: u64,
    /// The frames of all files, behind one another.
    pub frames: Vec<u8>,
}

/// The journal that files have in turn. It takes as many bytes as they have.
///
/// # Errors
///
/// `OtherStore` where a header is another database's; `BadManifest` where its salt makes no seed, or where the first file has no
/// header and the commit that was safe isn't below 2^63; `NoMemory` where a growth is refused.
pub fn join_files<'a>(
    alloc: Global,
    head: &ManifestHead,
    files: &[&'a [u8]],
) -> Result<Joined<'a>, JoinFault>
    ensures ok { IfOk result (λ j. IsJoined head.now (map (λ f. f.now) files.now) (map piece_now j.pieces.items) j.base j.frames.items) }
    ensures err { IfErr result (AreNoJournal head.now (map (λ f. f.now) files.now)) }
{
    let pieces = pieces_of(alloc, head, files)?;
    let base = base_of(head.commit, pieces.as_slice());
    if seed_of(head.salt) == 0 || base >= NUMBER_LIMIT {
        return Err(JoinFault::BadManifest);
    }
    let frames = frames_of(alloc, pieces.as_slice())?;
    Ok(Joined {
        pieces,
        base,
        frames,
    })
}

/// What the files have in turn.
fn pieces_of<'a>(
    alloc: Global,
    head: &ManifestHead,
    files: &[&'a [u8]],
) -> Result<Vec<Piece<'a>>, JoinFault>
    ensures ok { IfOk result (λ ps. pieces_of head.now (map (λ f. f.now) files.now) ≡ Some (map piece_now ps.items)) }
    ensures err { IfErr result (AreNoJournal head.now (map (λ f. f.now) files.now)) }
{
    let mut pieces = Vec::new(alloc);
    for file in files {
        let Some(piece) = piece_of(head, file) else {
            return Err(JoinFault::OtherStore);
        };
        pieces.push(piece)?;
    }
    Ok(pieces)
}

/// What a file has. One without a header is the end of a journal, or damaged: what it says as frames tells which.
#[tactic(auto, unfolding(crate::specs::Pieces::piece_of))]
fn piece_of<'a>(head: &ManifestHead, bytes: &'a [u8]) -> Option<Piece<'a>>
    ensures { option_map piece_now result ≡ piece_of head.now bytes.now }
{
    match read_header(bytes) {
        Ok((header, frames)) => {
            if header.salt() == head.salt && header.store() == head.store {
                Some(Piece {
                    base: Some(header.base()),
                    frames,
                })
            } else {
                None
            }
        }
        Err(_) => Some(Piece {
            base: None,
            frames: bytes,
        }),
    }
}

/// The number of the commit before the first frame.
fn base_of(commit: u64, pieces: &[Piece<'_>]) -> u64
    ensures { result ≡ base_of commit (map piece_now pieces.now) }
{
    match pieces {
        [] => commit,
        [first, ..] => first.base.unwrap_or(commit),
    }
}

/// The frames of all files.
fn frames_of(alloc: Global, pieces: &[Piece<'_>]) -> Result<Vec<u8>, NoMemory>
    ensures { IfOk result (λ frames. frames.items ≡ frames_of (map piece_now pieces.now)) }
{
    let mut frames = Vec::new(alloc);
    for piece in pieces {
        frames.extend_from_slice(piece.frames)?;
    }
    Ok(frames)
}

/// How many bytes of frames the last file has that has any.
pub fn last_len(pieces: &[Piece<'_>]) -> usize
    ensures { result ≡ last_len 0 (map piece_now pieces.now) }
{
    let mut found = 0;
    for piece in pieces {
        if !piece.frames.is_empty() {
            found = piece.frames.len();
        }
    }
    found
}

/// Whether no file begins after the newest commit.
pub fn are_behind(newest: u64, pieces: &[Piece<'_>]) -> bool
    ensures { result ≡ are_behind newest (map piece_now pieces.now) }
{
    for piece in pieces {
        if let Some(base) = piece.base {
            if base > newest {
                return false;
            }
        }
    }
    true
}
