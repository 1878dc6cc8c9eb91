//! The files of a journal, by the names in the folder of its database.
ghost use Rattle.std.specs.Prelude.{◌≡◌, ◌<◌, ◌≤◌, ◌⊎◌, ◌^◌, ℕ, true, false, Some, IfErr, IfOk, IfSome, IsNone, map};
ghost use Rattle.segments.specs.Listing.{HasFile, IsGreatest, IsLast, IsMissing, journal_name};

use crate::fault::MissingFile;
use itoa::Buffer;

/// What is before the number in a file's name.
const JOURNAL: &str = "journal-";

/// The number of the last file of a journal, by the names in its folder, which may have others. All files from the first one on are
/// there.
///
/// # Errors
///
/// The first file that isn't there, where it is that of the first number, or a later one is there.
pub fn last_file(first: u64, names: &[&str]) -> Result<u64, MissingFile>
    ensures ok { IfOk result (IsLast first (map (λ n. n.now) names.now)) }
    ensures err { IfErr result (λ missing. IsMissing first (map (λ n. n.now) names.now) missing.number) }
{
    let Some(last) = greatest(names) else {
        return Err(MissingFile { number: first });
    };
    if last < first {
        return Err(MissingFile { number: first });
    }
    let mut number = first;
    while number < last {
        if !has_file(names, number) {
            return Err(MissingFile { number });
        }
        number += 1;
    }
    Ok(last)
}

/// The greatest number of a file, where there is one.
fn greatest(names: &[&str]) -> Option<u64>
    ensures some { IfSome result (IsGreatest (map (λ n. n.now) names.now)) }
    ensures none { IsNone result → (n : ℕ) → n < 2 ^ 64 → HasFile (map (λ n. n.now) names.now) n → ⊥ }
{
    let mut found = None;
    for name in names {
        if let Some(number) = journal_number(name) {
            found = Some(greater(found, number));
        }
    }
    found
}

/// The greater of a number that may have been found, and another one.
fn greater(found: Option<u64>, number: u64) -> u64
    ensures either { (result ≡ number) ⊎ (found ≡ Some result) }
    ensures above { number ≤ result }
    ensures most { IfSome found (λ n. n ≤ result) }
{
    match found {
        Some(last) if last > number => last,
        _ => number,
    }
}

/// Whether the file of a number is there.
fn has_file(names: &[&str], number: u64) -> bool
    ensures there { result ≡ true → HasFile (map (λ n. n.now) names.now) number }
    ensures gone { result ≡ false → HasFile (map (λ n. n.now) names.now) number → ⊥ }
{
    for name in names {
        if is_file(name, number) {
            return true;
        }
    }
    false
}

/// Whether a name is that of a number's file. Each number has one spelling.
fn is_file(name: &str, number: u64) -> bool
    ensures there { result ≡ true → name.now ≡ journal_name number }
    ensures gone { result ≡ false → name.now ≡ journal_name number → ⊥ }
{
    match name.strip_prefix(JOURNAL) {
        Some(digits) => Buffer::new().format(number) == digits,
        None => false,
    }
}

/// The number of a file of the journal, by its name.
fn journal_number(name: &str) -> Option<u64>
    ensures some { IfSome result (λ n. name.now ≡ journal_name n) }
    ensures none { IsNone result → (n : ℕ) → n < 2 ^ 64 → name.now ≡ journal_name n → ⊥ }
{
    let digits = name.strip_prefix(JOURNAL)?;
    let number = digits.parse::<u64>().ok()?;
    if is_file(name, number) {
        Some(number)
    } else {
        None
    }
}
