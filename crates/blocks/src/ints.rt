//! The numbers of a block. Zeros are only counted: a column that is a placeholder takes no memory for its values.
ghost use Rattle.std.specs.Prelude.{◌≡◌, ◌<◌, ◌≤◌, ◌+◌, ◌++◌, ◌∷◌, [], true, length, take, drop, IfOk, OnOk, OnErr};
ghost use Rattle.values.specs.declared.limits.TheConstants.{MAX_BLOCK_VALUES};
ghost use Rattle.std.specs.List.{list_all};
ghost use Rattle.blocks.specs.Ints.{AreInts, is_zero, numbers_of};

use std::alloc::Global;
use std::marker::Model;
use values::NoMemory;
use values::limits::MAX_BLOCK_VALUES;

/// What zeros are lent from.
static ZEROS: [i64; MAX_BLOCK_VALUES] = [0; MAX_BLOCK_VALUES];

/// Up to 1,024 numbers, which contracts see as their list.
#[derive(Drop)]
pub(crate) struct Ints {
    /// How many zeros there are, where nothing is spelled out.
    zeros: usize,
    /// The numbers, spelled out, where there are no such zeros.
    given: Vec<i64>,
}

impl Model for Ints {
    ghost use Rattle.std.specs.Prelude.{List, ℤ};
    ghost use Rattle.blocks.specs.Ints.{AreInts, numbers_of};

    ghost Value = { List ℤ };

    ghost view = { λ i. numbers_of i.zeros i.given.items };

    ghost invariant = { λ i. AreInts i.zeros i.given.items };
}

impl Ints {
    /// No numbers. It takes no memory.
    pub(crate) fn new(alloc: Global) -> Ints
        ensures { result ≡ [] }
    {
        Ints {
            zeros: 0,
            given: Vec::new(alloc),
        }
    }

    /// These numbers. Where all are 0 their memory is given back.
    pub(crate) fn of(alloc: Global, numbers: Vec<i64>) -> Ints
        requires few { length numbers.items ≤ MAX_BLOCK_VALUES }
        ensures { result ≡ numbers.items }
    {
        if are_zeros(numbers.as_slice()) {
            return Ints {
                zeros: numbers.len(),
                given: Vec::new(alloc),
            };
        }
        Ints {
            zeros: 0,
            given: numbers,
        }
    }

    /// How many numbers there are, at most 1,024.
    #[inline(always)]
    pub(crate) fn len(&self) -> usize
        ensures len { result ≡ length self.now }
        ensures few { result ≤ MAX_BLOCK_VALUES }
    {
        self.zeros + self.given.len()
    }

    /// The numbers, lent.
    #[inline(always)]
    pub(crate) fn as_slice(&self) -> &[i64]
        ensures { result.now ≡ self.now }
    {
        if self.zeros == 0 {
            self.given.as_slice()
        } else {
            &ZEROS[..self.zeros]
        }
    }

    /// Puts a number after the others. With `NoMemory` the numbers are as they were.
    ///
    /// # Errors
    ///
    /// `NoMemory` where a growth is refused.
    #[inline(always)]
    pub(crate) fn push(&mut self, number: i64) -> Result<(), NoMemory>
        requires few { length self.old < MAX_BLOCK_VALUES }
        ensures ok { OnOk result (self.new ≡ self.old ++ number ∷ []) }
        ensures err { OnErr result (self.new ≡ self.old) }
    {
        let Ints { zeros, given } = self;
        if number == 0 && given.is_empty() {
            *zeros += 1;
            return Ok(());
        }
        spell_out(zeros, given)?;
        given.push(number)?;
        Ok(())
    }

    /// Puts so many numbers of others, from one of them on, after these. With `NoMemory` the numbers are as they were.
    ///
    /// # Errors
    ///
    /// `NoMemory` where a growth is refused.
    pub(crate) fn push_run(
        &mut self,
        others: &Ints,
        start: usize,
        count: usize,
    ) -> Result<(), NoMemory>
        requires few { length self.old + count ≤ MAX_BLOCK_VALUES }
        requires within { start + count ≤ length others.now }
        ensures ok { OnOk result (self.new ≡ self.old ++ take count (drop start others.now)) }
        ensures err { OnErr result (self.new ≡ self.old) }
    {
        let Ints { zeros, given } = self;
        if others.given.is_empty() && given.is_empty() {
            *zeros += count;
            return Ok(());
        }
        spell_out(zeros, given)?;
        given.extend_from_slice(&others.as_slice()[start..start + count])?;
        Ok(())
    }

    /// The same numbers, in memory of their own.
    ///
    /// # Errors
    ///
    /// `NoMemory` where a growth is refused.
    pub(crate) fn copy(&self) -> Result<Ints, NoMemory>
        ensures { IfOk result (λ copied. copied ≡ self.now) }
    {
        let given = self.given.clone()?;
        Ok(Ints {
            zeros: self.zeros,
            given,
        })
    }
}

/// Spells zeros out, where there are some. With `NoMemory` they are only counted, as before.
fn spell_out(zeros: &mut usize, given: &mut Vec<i64>) -> Result<(), NoMemory>
    requires { AreInts zeros.old given.old.items }
    ensures ok { OnOk result ((zeros.new ≡ 0) × (given.new.items ≡ numbers_of zeros.old given.old.items)) }
    ensures err { OnErr result ((zeros.new ≡ zeros.old) × (given.new.items ≡ given.old.items)) }
{
    if *zeros > 0 {
        given.resize(*zeros, 0)?;
        *zeros = 0;
    }
    Ok(())
}

/// Whether all numbers are 0.
fn are_zeros(numbers: &[i64]) -> bool
    ensures { result ≡ list_all is_zero numbers.now }
{
    numbers.iter().all(|number| is_zero(*number))
}

fn is_zero(number: i64) -> bool
    ensures { result ≡ is_zero number }
{
    number == 0
}
