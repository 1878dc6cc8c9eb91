//! Truth values, eight a byte.
ghost use Rattle.std.specs.Prelude.{◌≡◌, ◌<◌, ◌≤◌, ◌+◌, ◌-◌, ◌*◌, ◌^◌, ◌++◌, ◌∷◌, [], Bool, List, pos, cond, length, map, take, drop, Some, slice_get, IfOk, IsOk, OnOk, OnErr, IsTrue, vec_capacity};
ghost use Rattle.values.specs.declared.limits.TheConstants.{MAX_BLOCK_VALUES};
ghost use Rattle.blocks.specs.Payload.{ArePacked, all_bits, is_true, IsPacked, bit_of, bits_of, byte_of, byte_count, packed, has_set_padding};

use std::alloc::Global;
use std::marker::Model;
use values::{NoMemory, Value};

/// So many truths go through bytes into numbers at once.
const AT_ONCE: usize = 64;

/// Up to 1,024 truth values, which contracts see as their list. They lie as their payload has them: the first is the
/// highest bit of the first byte, and the bits after the last are 0.
#[derive(Drop)]
pub struct Bits {
    /// As many as the truths need.
    pub(crate) bytes: Vec<u8>,
    /// How many truths there are.
    pub(crate) count: usize,
}

impl Model for Bits {
    ghost use Rattle.std.specs.Prelude.{List, Bool, take};
    ghost use Rattle.blocks.specs.Payload.{all_bits, IsPacked};

    ghost Value = { List Bool };

    ghost view = { λ b. take b.count (all_bits b.bytes.items) };

    ghost invariant = { λ b. IsPacked b.count b.bytes.items };
}

impl Bits {
    /// How many truths there are.
    pub fn len(&self) -> usize
        ensures { result ≡ length self.now }
    {
        self.count
    }

    /// The truth number `i`.
    pub fn get(&self, i: usize) -> bool
        requires { i < length self.now }
        ensures { slice_get self.now i ≡ Some result }
    {
        (self.bytes[i / 8] >> (7 - i % 8)) & 1 == 1
    }

    /// Puts truths from one of them on into a room, as many as it holds: 1 for true, and 0 for false.
    pub fn put_numbers(&self, first: usize, out: &mut [i64])
        requires { first + length out.old ≤ length self.now }
        ensures { out.new ≡ map (λ truth. cond truth (pos 1) (pos 0)) (take (length out.old) (drop first self.now)) }
    {
        let length = self.len();
        prove!(first + out.len() <= length);
        let mut bytes = [0; AT_ONCE];
        let mut done = 0;
        while done < out.len() {
            let more = (out.len() - done).min(AT_ONCE);
            self.put_bytes(first + done, &mut bytes[..more]);
            widen(&bytes[..more], &mut out[done..done + more]);
            done += more;
        }
    }

    /// Puts truths from one of them on into a room of bytes, as many as it holds: 1 for true, and 0 for false.
    pub fn put_bytes(&self, first: usize, out: &mut [u8])
        requires { first + length out.old ≤ length self.now }
        ensures { out.new ≡ map (λ truth. cond truth 1 0) (take (length out.old) (drop first self.now)) }
    {
        let length = self.len();
        prove!(first + out.len() <= length);
        let mut done = 0;
        while done < out.len() {
            done += self.put_next(first + done, &mut out[done..]);
        }
    }

    /// Puts truths from one of them on at the begin of a room, and answers how many: the eight of a byte where that one is the
    /// first of its byte and the room has eight places, and else that one alone.
    #[inline(always)]
    fn put_next(&self, first: usize, out: &mut [u8]) -> usize
        requires some { 0 < length out.old }
        requires within { first + length out.old ≤ length self.now }
        ensures length { length out.new ≡ length out.old }
        ensures some { 0 < result }
        ensures few { result ≤ length out.old }
        ensures truths { take result out.new ≡ map (λ truth. cond truth 1 0) (take result (drop first self.now)) }
    {
        if first % 8 == 0 && out.len() >= 8 {
            out[..8].copy_from_slice(&truths_in(self.bytes[first / 8]));
            8
        } else {
            out[0] = u8::from(self.get(first));
            1
        }
    }

    /// No truths. It takes no memory.
    pub(crate) fn new(alloc: Global) -> Bits
        ensures { result ≡ [] }
    {
        Bits {
            bytes: Vec::new(alloc),
            count: 0,
        }
    }

    /// Puts a truth after the others. With `NoMemory` the truths are as they were.
    ///
    /// # Errors
    ///
    /// `NoMemory` where the growth is refused.
    pub(crate) fn push(&mut self, truth: bool) -> Result<(), NoMemory>
        requires few { length self.old < MAX_BLOCK_VALUES }
        ensures ok { OnOk result (self.new ≡ self.old ++ truth ∷ []) }
        ensures err { OnErr result (self.new ≡ self.old) }
    {
        let Bits { bytes, count } = self;
        add_bit(bytes, *count, truth)?;
        *count += 1;
        Ok(())
    }

    /// Puts so many truths of others, from one of them on, after these. With `NoMemory` the truths are as they were.
    ///
    /// # Errors
    ///
    /// `NoMemory` where the growth is refused.
    pub(crate) fn push_run(
        &mut self,
        others: &Bits,
        start: usize,
        count: usize,
    ) -> Result<(), NoMemory>
        requires few { length self.old + count ≤ MAX_BLOCK_VALUES }
        requires within { start + count ≤ length others.now }
        ensures ok { OnOk result (self.new ≡ self.old ++ take count (drop start others.now)) }
        ensures err { OnErr result (self.new ≡ self.old) }
    {
        let Bits {
            bytes,
            count: before,
        } = self;
        add_run(bytes, *before, others, start, count)?;
        *before += count;
        Ok(())
    }

    /// The truths among the values; what is none counts as false.
    ///
    /// # Errors
    ///
    /// `NoMemory` where the growth is refused.
    pub(crate) fn from_values(alloc: Global, values: &[Value]) -> Result<Bits, NoMemory>
        requires { length values.now ≤ MAX_BLOCK_VALUES }
        ensures { IfOk result (λ bits. bits ≡ map is_true values.now) }
    {
        let bytes = pack(alloc, values)?;
        Ok(Bits {
            bytes,
            count: values.len(),
        })
    }

    /// The truths whose payload the bytes are.
    ///
    /// # Errors
    ///
    /// `NoMemory` where the growth is refused.
    pub(crate) fn of_payload(alloc: Global, count: usize, bytes: &[u8]) -> Result<Bits, NoMemory>
        requires { IsPacked count bytes.now }
        ensures { IfOk result (λ bits. bits ≡ take count (all_bits bytes.now)) }
    {
        let bytes = Vec::from_slice(alloc, bytes)?;
        Ok(Bits { bytes, count })
    }

    /// Their payload, lent.
    pub(crate) fn as_bytes(&self) -> &[u8]
        ensures { result.now ≡ packed (byte_count (length self.now)) self.now }
    {
        self.bytes.as_slice()
    }

    /// The same truths, in memory of their own.
    ///
    /// # Errors
    ///
    /// `NoMemory` where the growth is refused.
    pub(crate) fn copy(&self) -> Result<Bits, NoMemory>
        ensures { IfOk result (λ copied. copied ≡ self.now) }
    {
        let Bits { bytes, count } = self;
        let bytes = bytes.clone()?;
        Ok(Bits {
            bytes,
            count: *count,
        })
    }
}

/// The truths of a byte, 1 for true and 0 for false. The product has the byte eight times, each nine bits above the one before:
/// so the highest bit of each of its bytes is one truth after the other.
#[inline(always)]
fn truths_in(byte: u8) -> [u8; 8]
    ensures { result ≡ map (λ truth. cond truth 1 0) (bits_of byte) }
{
    let copies = u64::from(byte).wrapping_mul(0x8040_2010_0804_0201);
    ((copies >> 7) & 0x0101_0101_0101_0101).to_le_bytes()
}

/// Puts bytes as numbers into a room for as many.
#[inline(always)]
fn widen(bytes: &[u8], out: &mut [i64])
    requires { length bytes.now ≡ length out.old }
    ensures { out.new ≡ map pos bytes.now }
{
    for i in 0..bytes.len() {
        out[i] = i64::from(bytes[i]);
    }
}

/// How many bytes so many truths take.
pub(crate) fn byte_count(count: usize) -> usize
    requires { count ≤ MAX_BLOCK_VALUES }
    ensures { result ≡ byte_count count }
{
    count.div_ceil(8)
}

/// Puts a truth's bit after those of so many truths, in a byte of its own where the last is full.
fn add_bit(bytes: &mut Vec<u8>, count: usize, truth: bool) -> Result<(), NoMemory>
    requires few { count < MAX_BLOCK_VALUES }
    requires packed { ArePacked count bytes.old.items }
    ensures ok { OnOk result ((bs : List Bool) → length bs ≡ count → bytes.old.items ≡ packed (byte_count count) bs
        → bytes.new.items ≡ packed (byte_count (count + 1)) (bs ++ truth ∷ [])) }
    ensures err { OnErr result (bytes.new.items ≡ bytes.old.items) }
    ensures capacity { vec_capacity bytes.old ≤ vec_capacity bytes.new }
    ensures succeeds { byte_count (count + 1) ≤ vec_capacity bytes.old → IsOk result }
{
    let bit = bit_in(truth, count % 8);
    if count % 8 == 0 {
        bytes.push(bit)?;
    } else {
        bytes[count / 8] += bit;
    }
    Ok(())
}

/// Puts the bits of so many other truths after those of so many truths. All of the room is made first.
fn add_run(
    bytes: &mut Vec<u8>,
    count: usize,
    others: &Bits,
    start: usize,
    more: usize,
) -> Result<(), NoMemory>
    requires few { count + more ≤ MAX_BLOCK_VALUES }
    requires packed { ArePacked count bytes.old.items }
    requires within { start + more ≤ length others.now }
    ensures ok { OnOk result ((bs : List Bool) → length bs ≡ count → bytes.old.items ≡ packed (byte_count count) bs
        → bytes.new.items ≡ packed (byte_count (count + more)) (bs ++ take more (drop start others.now))) }
    ensures err { OnErr result (bytes.new.items ≡ bytes.old.items) }
{
    let length = others.len();
    prove!(start + more <= length);
    let room = byte_count(count + more) - bytes.len();
    bytes.reserve(room)?;
    for i in 0..more {
        add_bit(bytes, count + i, others.get(start + i))?;
    }
    Ok(())
}

/// A truth's bit at a place of its byte, of which the first is the highest.
fn bit_in(truth: bool, place: usize) -> u8
    requires { place < 8 }
    ensures { result ≡ cond truth (2 ^ (7 - place)) 0 }
{
    if truth { 1 << (7 - place) } else { 0 }
}

/// The values' truths as bytes.
fn pack(alloc: Global, values: &[Value]) -> Result<Vec<u8>, NoMemory>
    requires { length values.now ≤ MAX_BLOCK_VALUES }
    ensures { IfOk result (λ bytes. bytes.items ≡ packed (byte_count (length values.now)) (map is_true values.now)) }
{
    let count = byte_count(values.len());
    let mut bytes = Vec::with_capacity(alloc, count)?;
    for place in 0..count {
        bytes.push(byte_of(&values[8 * place..]))?;
    }
    Ok(bytes)
}

/// The first eight truths as a byte, the first as its highest bit.
fn byte_of(values: &[Value]) -> u8
    ensures { result ≡ byte_of (map is_true values.now) }
{
    bit_of(values, 0, 128)
        + bit_of(values, 1, 64)
        + bit_of(values, 2, 32)
        + bit_of(values, 3, 16)
        + bit_of(values, 4, 8)
        + bit_of(values, 5, 4)
        + bit_of(values, 6, 2)
        + bit_of(values, 7, 1)
}

/// The weight of a bit where the truth number `i` is true, else 0.
fn bit_of(values: &[Value], i: usize, weight: u8) -> u8
    ensures { result ≡ weight * bit_of (map is_true values.now) i }
{
    match values.get(i) {
        Some(Value::Bool(true)) => weight,
        _ => 0,
    }
}

/// Whether a bit after so many truths is 1.
pub(crate) fn has_set_padding(count: usize, bytes: &[u8]) -> bool
    requires { length bytes.now ≡ byte_count count }
    ensures { result ≡ has_set_padding count bytes.now }
{
    let used = count % 8;
    used > 0 && bytes[count / 8] % (1 << (8 - used)) != 0
}
