//! The texts of a block. Where all are equal one is spelled out, and the others are only counted: what is stored once for 1,024 rows is
//! kept once too.
ghost use Rattle.std.specs.Prelude.{◌≡◌, ◌<◌, ◌≤◌, ◌+◌, ◌*◌, ◌++◌, ◌∷◌, []};
ghost use Rattle.std.specs.Prelude.{true, length, replicate, take, drop, Some, slice_get, IfOk, OnOk, OnErr};
ghost use Rattle.std.specs.List.{AllByRecursion};
ghost use Rattle.values.specs.declared.limits.TheConstants.{MAX_TEXT_BYTES, MAX_BLOCK_VALUES};
ghost use Rattle.blocks.specs.Cuts.{IsText};
ghost use Rattle.blocks.specs.Copies.{AreTexts, texts_of};

use crate::spelled::Spelled;
use std::alloc::Global;
use std::marker::Model;
use values::NoMemory;

/// Up to 1,024 texts of at most 4,096 bytes each, which contracts see as the list of their bytes. No text has memory of
/// its own.
#[derive(Drop)]
pub struct Texts {
    /// The texts, spelled out: one alone where it has copies.
    given: Spelled,
    /// How many times more that one comes.
    copies: usize,
}

impl Model for Texts {
    ghost use Rattle.std.specs.Prelude.{List, ℕ};
    ghost use Rattle.blocks.specs.Copies.{AreTexts, texts_of};

    ghost Value = { List (List ℕ) };

    ghost view = { λ t. texts_of t.given t.copies };

    ghost invariant = { λ t. AreTexts t.given t.copies };
}

impl Texts {
    /// No texts. It takes no memory.
    pub(crate) fn new(alloc: Global) -> Texts
        ensures { result ≡ [] }
    {
        Texts {
            given: Spelled::new(alloc),
            copies: 0,
        }
    }

    /// No texts, with room for `count` of them and `bytes` bytes in all.
    ///
    /// # Errors
    ///
    /// `NoMemory` where the growth is refused.
    pub(crate) fn with_room(alloc: Global, count: usize, bytes: usize) -> Result<Texts, NoMemory>
        ensures { IfOk result (λ texts. texts ≡ []) }
    {
        Ok(Texts {
            given: Spelled::with_room(alloc, count, bytes)?,
            copies: 0,
        })
    }

    /// How many texts there are, at most 1,024.
    pub fn len(&self) -> usize
        ensures len { result ≡ length self.now }
        ensures few { result ≤ MAX_BLOCK_VALUES }
    {
        self.given.len() + self.copies
    }

    /// How many bytes the first `count` texts have together.
    pub(crate) fn byte_len(&self, count: usize) -> usize
        requires { count ≤ length self.now }
        ensures { result ≤ MAX_TEXT_BYTES * MAX_BLOCK_VALUES }
    {
        if self.copies == 0 {
            self.given.byte_len(count)
        } else {
            count * self.given.get(0).len()
        }
    }

    /// The text number `i`, lent.
    #[inline(always)]
    pub fn get(&self, i: usize) -> &str
        requires { i < length self.now }
        ensures text { slice_get self.now i ≡ Some result.now }
        ensures short { length result.now ≤ MAX_TEXT_BYTES }
    {
        let at = if self.copies == 0 { i } else { 0 };
        self.given.get(at)
    }

    /// Puts a text after the others. With `NoMemory` the texts are as they were.
    ///
    /// # Errors
    ///
    /// `NoMemory` where a growth is refused.
    #[inline(always)]
    pub(crate) fn push(&mut self, text: &str) -> Result<(), NoMemory>
        requires few { length self.old < MAX_BLOCK_VALUES }
        requires short { length text.now ≤ MAX_TEXT_BYTES }
        ensures ok { OnOk result (self.new ≡ self.old ++ text.now ∷ []) }
        ensures err { OnErr result (self.new ≡ self.old) }
        ensures fit { AllByRecursion IsText self.new }
    {
        let Texts { given, copies } = self;
        if is_one(given, text) {
            *copies += 1;
            return Ok(());
        }
        spell_out(given, copies)?;
        given.push(text)
    }

    /// Puts so many texts of others, from one of them on, after these: one copy of their bytes, and an end for each. Copies of a text
    /// are only counted, where there is none but that text then. With `NoMemory` the texts are as they were.
    ///
    /// # Errors
    ///
    /// `NoMemory` where a growth is refused.
    pub(crate) fn push_run(
        &mut self,
        others: &Texts,
        start: usize,
        count: usize,
    ) -> Result<(), NoMemory>
        requires few { length self.old + count ≤ MAX_BLOCK_VALUES }
        requires within { start + count ≤ length others.now }
        ensures ok { OnOk result (self.new ≡ self.old ++ take count (drop start others.now)) }
        ensures err { OnErr result (self.new ≡ self.old) }
        ensures fit { AllByRecursion IsText self.new }
    {
        if others.copies > 0 {
            return self.push_copies(others.given.get(0), count);
        }
        let Texts { given, copies } = self;
        spell_out(given, copies)?;
        given.push_run(&others.given, start, count)
    }

    /// Puts a text so many times after the others. With `NoMemory` the texts are as they were.
    fn push_copies(&mut self, text: &str, count: usize) -> Result<(), NoMemory>
        requires few { length self.old + count ≤ MAX_BLOCK_VALUES }
        requires short { length text.now ≤ MAX_TEXT_BYTES }
        ensures ok { OnOk result (self.new ≡ self.old ++ replicate count text.now) }
        ensures err { OnErr result (self.new ≡ self.old) }
        ensures fit { AllByRecursion IsText self.new }
    {
        let Texts { given, copies } = self;
        if count == 0 {
            return Ok(());
        }
        if is_one(given, text) {
            *copies += count;
            return Ok(());
        }
        if given.len() == 0 {
            given.push(text)?;
            *copies = count - 1;
            return Ok(());
        }
        spell_out(given, copies)?;
        *given = given.with_copies(text, count)?;
        Ok(())
    }

    /// The same texts, in memory of their own.
    ///
    /// # Errors
    ///
    /// `NoMemory` where a growth is refused.
    pub(crate) fn copy(&self) -> Result<Texts, NoMemory>
        ensures { IfOk result (λ copied. copied ≡ self.now) }
    {
        Ok(Texts {
            given: self.given.copy()?,
            copies: self.copies,
        })
    }
}

/// Whether there is one text alone, this one.
#[inline(always)]
fn is_one(given: &Spelled, text: &str) -> bool
    ensures { result ≡ true → given.now ≡ text.now ∷ [] }
{
    given.len() == 1 && given.get(0) == text
}

/// Spells copies out, where there are some. With `NoMemory` they are only counted, as before.
#[inline(always)]
fn spell_out(given: &mut Spelled, copies: &mut usize) -> Result<(), NoMemory>
    requires { AreTexts given.old copies.old }
    ensures ok { OnOk result ((copies.new ≡ 0) × (given.new ≡ texts_of given.old copies.old) × AllByRecursion IsText given.new) }
    ensures err { OnErr result ((copies.new ≡ copies.old) × (given.new ≡ given.old)) }
{
    if *copies > 0 {
        let longer = given.with_copies(given.get(0), *copies)?;
        *given = longer;
        *copies = 0;
    }
    Ok(())
}
