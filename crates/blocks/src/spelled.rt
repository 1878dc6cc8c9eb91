//! Texts that are spelled out: in one buffer, with the offset at which each ends.
ghost use Rattle.std.specs.Prelude.{◌≡◌, ◌<◌, ◌≤◌, ◌+◌, ◌-◌, ◌*◌, ◌^◌, ◌++◌, ◌∷◌, []};
ghost use Rattle.std.specs.Prelude.{List, ℕ, length, map, replicate, take, drop, Some, slice_get, slice_index_or, IfOk, OnOk, OnErr, string_bytes, vec_len, vec_capacity};
ghost use Rattle.std.specs.List.{All, AllByRecursion};
ghost use Rattle.blocks.specs.Cuts.{IsText};
ghost use Rattle.values.specs.declared.limits.TheConstants.{MAX_TEXT_BYTES, MAX_BLOCK_VALUES};

use std::alloc::Global;
use std::marker::Model;
use values::NoMemory;

/// Up to 1,024 texts of at most 4,096 bytes each, which contracts see as the list of their bytes. No text has memory of
/// its own.
#[derive(Drop)]
pub(crate) struct Spelled {
    /// The texts, one after the other.
    text: String,
    /// Where each text ends in it. A full block has at most 4 MiB, so 32 bits hold each.
    ends: Vec<u32>,
}

impl Model for Spelled {
    ghost use Rattle.std.specs.Prelude.{List, ℕ, string_bytes};
    ghost use Rattle.blocks.specs.Cuts.{cut, IsCut};

    ghost Value = { List (List ℕ) };

    ghost view = { λ t. cut 0 t.ends.items (string_bytes t.text) };

    ghost invariant = { λ t. IsCut t.ends.items (string_bytes t.text) };
}

impl Spelled {
    /// No texts. It takes no memory.
    pub(crate) fn new(alloc: Global) -> Spelled
        ensures { result ≡ [] }
    {
        Spelled {
            text: String::new(alloc),
            ends: Vec::new(alloc),
        }
    }

    /// No texts, with room for `count` of them and `bytes` bytes in all.
    ///
    /// # Errors
    ///
    /// `NoMemory` where the growth is refused.
    pub(crate) fn with_room(alloc: Global, count: usize, bytes: usize) -> Result<Spelled, NoMemory>
        ensures { IfOk result (λ texts. texts ≡ []) }
    {
        let text = String::with_capacity(alloc, bytes)?;
        let ends = Vec::with_capacity(alloc, count)?;
        Ok(Spelled { text, ends })
    }

    /// How many texts there are, at most 1,024.
    pub(crate) fn len(&self) -> usize
        ensures len { result ≡ length self.now }
        ensures few { result ≤ MAX_BLOCK_VALUES }
    {
        self.ends.len()
    }

    /// How many bytes the first `count` texts have together.
    pub(crate) fn byte_len(&self, count: usize) -> usize
        requires { count ≤ length self.now }
        ensures { result ≤ MAX_TEXT_BYTES * MAX_BLOCK_VALUES }
    {
        begin_of(self.ends.as_slice(), count)
    }

    /// The text number `i`, lent.
    #[inline(always)]
    pub(crate) fn get(&self, i: usize) -> &str
        requires { i < length self.now }
        ensures text { slice_get self.now i ≡ Some result.now }
        ensures short { length result.now ≤ MAX_TEXT_BYTES }
    {
        let ends = self.ends.as_slice();
        &self.text.as_str()[begin_of(ends, i)..begin_of(ends, i + 1)]
    }

    /// Puts a text after the others. With `NoMemory` the texts are as they were.
    ///
    /// # Errors
    ///
    /// `NoMemory` where a growth is refused.
    #[inline(always)]
    pub(crate) fn push(&mut self, text: &str) -> Result<(), NoMemory>
        requires few { length self.old < MAX_BLOCK_VALUES }
        requires short { length text.now ≤ MAX_TEXT_BYTES }
        ensures ok { OnOk result (self.new ≡ self.old ++ text.now ∷ []) }
        ensures err { OnErr result (self.new ≡ self.old) }
        ensures fit { AllByRecursion IsText self.new }
    {
        self.ends.reserve(1)?;
        self.text.push_str(text)?;
        self.ends.push_reserved(self.text.len() as u32);
        Ok(())
    }

    /// Puts so many texts of others, from one of them on, after these: one copy of their bytes, and an end for each. With
    /// `NoMemory` the texts are as they were.
    ///
    /// # Errors
    ///
    /// `NoMemory` where a growth is refused.
    pub(crate) fn push_run(
        &mut self,
        others: &Spelled,
        start: usize,
        count: usize,
    ) -> Result<(), NoMemory>
        requires few { length self.old + count ≤ MAX_BLOCK_VALUES }
        requires within { start + count ≤ length others.now }
        ensures ok { OnOk result (self.new ≡ self.old ++ take count (drop start others.now)) }
        ensures err { OnErr result (self.new ≡ self.old) }
        ensures fit { AllByRecursion IsText self.new }
    {
        let ends = others.ends.as_slice();
        let length = ends.len();
        prove!(start + count <= length);
        let from = begin_of(ends, start);
        let to = begin_of(ends, start + count);
        let before = self.text.len();
        self.ends.reserve(count)?;
        self.text.push_str(&others.text.as_str()[from..to])?;
        add_ends(&mut self.ends, &ends[start..start + count], from, before);
        Ok(())
    }

    /// These texts with so many times one more behind them, in memory of their own.
    ///
    /// # Errors
    ///
    /// `NoMemory` where a growth is refused.
    pub(crate) fn with_copies(&self, text: &str, count: usize) -> Result<Spelled, NoMemory>
        requires few { length self.now + count ≤ MAX_BLOCK_VALUES }
        requires short { length text.now ≤ MAX_TEXT_BYTES }
        ensures ok { IfOk result (λ longer. longer ≡ self.now ++ replicate count text.now) }
        ensures fit { OnOk result (AllByRecursion IsText (self.now ++ replicate count text.now)) }
    {
        let mut longer = self.copy()?;
        for _ in 0..count {
            longer.push(text)?;
        }
        Ok(longer)
    }

    /// The same texts, in memory of their own.
    ///
    /// # Errors
    ///
    /// `NoMemory` where a growth is refused.
    pub(crate) fn copy(&self) -> Result<Spelled, NoMemory>
        ensures copied { IfOk result (λ copied. copied ≡ self.now) }
        ensures fit { OnOk result (AllByRecursion IsText self.now) }
    {
        let text = self.text.clone()?;
        let ends = self.ends.clone()?;
        Ok(Spelled { text, ends })
    }
}

/// Where the text number `i` begins: where the one before it ends. One past the last begins where the last ends.
#[inline(always)]
fn begin_of(ends: &[u32], i: usize) -> usize
    requires { i ≤ length ends.now }
    ensures { result ≡ slice_index_or (0 ∷ ends.now) i 0 }
{
    if i == 0 { 0 } else { ends[i - 1] as usize }
}

/// Puts ends after the others: what ended so far behind `from` ends as far behind `to`. There is room for them.
fn add_ends(ends: &mut Vec<u32>, more: &[u32], from: usize, to: usize)
    requires room { vec_len ends.old + length more.now ≤ vec_capacity ends.old }
    requires moved { All (λ end. (from ≤ end) × (to + (end - from) < 2 ^ 32)) more.now }
    ensures { ends.new.items ≡ ends.old.items ++ map (λ end. to + (end - from)) more.now }
{
    for end in more {
        ends.push_reserved((to + (*end as usize - from)) as u32);
    }
}
