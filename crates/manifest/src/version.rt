//! Manifests of later versions. The first line, with the version, and the last, with the check, are those of every version.
ghost use Rattle.std.specs.Prelude.{◌≡◌, ◌↔◌, IsTrue};
ghost use Rattle.manifest.specs.Version.{IsLater, later_version};

use crate::fields::{after_word, number_at};
use crate::reading::checked;

/// The one version of the format.
const VERSION: u64 = 1;

/// The greatest version that a first line may say.
const MAX_VERSION: u64 = u32::MAX as u64;

/// Whether the bytes are a manifest of a later version: it has its check, and its first line says a version above this one. Such bytes
/// aren't damaged, though this version doesn't read them. Takes no memory.
pub fn is_later_manifest(bytes: &[u8]) -> bool
    ensures { IsTrue result ↔ IsLater bytes.now }
{
    later_version(bytes).is_some()
}

/// The version that a manifest says, where it is a later one.
#[tactic(auto, unfolding(crate::specs::Version::later_version))]
fn later_version(bytes: &[u8]) -> Option<u64>
    ensures { result ≡ later_version bytes.now }
{
    let body = checked(bytes)?;
    let rest = after_word(body, b"narthexmace ")?;
    let (version, _) = number_at(rest, MAX_VERSION, b'\n')?;
    if version > VERSION {
        Some(version)
    } else {
        None
    }
}
