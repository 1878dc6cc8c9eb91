//! Payloads read and written: each named payload, the limits, and what a block lends.
//!
//! That a refused growth is answered, and leaves the bytes that were written before, shows under
//! `rt try --test --fail-alloc N`, for N from 1 on: each test ends well, or with the error of the growth.
ghost use Rattle.std.specs.Prelude.{◌≡◌, ◌≤◌, true, false, IfOk, IsTrue, IsFalse, length};
ghost use Rattle.std.specs.List.{list_all, list_any};
ghost use Rattle.values.specs.Lent.{value_of};
ghost use Rattle.values.specs.Shape.{has_type, is_too_long};
ghost use Rattle.values.specs.declared.limits.TheConstants.{MAX_BLOCK_VALUES};

mod encodings;

use crate::assertions::assert_holds;
use blocks::{Block, BlockFault, BlockValues, read_block, write_block};
use std::alloc::Global;
use std::process::Abort;
use std::test::Fail;
use values::limits::MAX_BLOCK_VALUES;
use values::{ColumnType, NoMemory, Text, Value, ValueRef};

/// What a payload is read as: its values, or its first fault.
type Wanted = Result<&'static [ValueRef<'static>], BlockFault>;

/// What a payload is, the type and the count of its values, its bytes, and what they read as.
type Case = (&'static str, ColumnType, usize, &'static [u8], Wanted);

/// That a block has these values.
fn assert_values(rt: &impl Abort, block: &Block, values: &[ValueRef<'_>]) {
    assert!(rt; block.len() == values.len());
    for (i, value) in values.iter().enumerate() {
        assert!(rt; i < block.len());
        assert!(rt; block.get(i) == *value);
    }
}

/// That this was read.
fn assert_wanted(
    rt: &impl Abort,
    read: &Result<Block, BlockFault>,
    want: Wanted,
    label: &str,
) -> Result<(), NoMemory> {
    match (read, want) {
        (Err(BlockFault::NoMemory), _) => return Err(NoMemory),
        (Ok(block), Ok(values)) => assert_values(rt, block, values),
        (Err(fault), Err(due)) => assert_holds(rt, *fault == due, label),
        _ => assert_holds(rt, false, label),
    }
    Ok(())
}

/// That the payload reads so.
fn assert_read(
    rt: &impl Abort,
    alloc: Global,
    (label, ty, count, bytes, want): Case,
) -> Result<(), NoMemory> {
    assert!(rt; count <= MAX_BLOCK_VALUES);
    let read = read_block(alloc, ty, count, bytes);
    assert_wanted(rt, &read, want, label)
}

/// The payloads that have names.
static NAMED: [Case; 10] = [
    (
        "three truths",
        ColumnType::Bool,
        3,
        &[0xa0],
        Ok(&[
            ValueRef::Bool(true),
            ValueRef::Bool(false),
            ValueRef::Bool(true),
        ]),
    ),
    (
        "set padding",
        ColumnType::Bool,
        3,
        &[0xa1],
        Err(BlockFault::BadPadding),
    ),
    (
        "nine truths",
        ColumnType::Bool,
        9,
        &[0xff, 0x80],
        Ok(&[
            ValueRef::Bool(true),
            ValueRef::Bool(true),
            ValueRef::Bool(true),
            ValueRef::Bool(true),
            ValueRef::Bool(true),
            ValueRef::Bool(true),
            ValueRef::Bool(true),
            ValueRef::Bool(true),
            ValueRef::Bool(true),
        ]),
    ),
    (
        "a byte short",
        ColumnType::Bool,
        9,
        &[0xff],
        Err(BlockFault::Short(0)),
    ),
    (
        "minus one",
        ColumnType::Int,
        1,
        &[0xff; 8],
        Ok(&[ValueRef::Int(-1)]),
    ),
    (
        "least number",
        ColumnType::Int,
        1,
        &[0x80, 0, 0, 0, 0, 0, 0, 0],
        Ok(&[ValueRef::Int(i64::MIN)]),
    ),
    (
        "empty text",
        ColumnType::Text,
        1,
        &[0, 0],
        Ok(&[ValueRef::Text("")]),
    ),
    (
        "text cut short",
        ColumnType::Text,
        1,
        &[0, 3, 0x41, 0x6e],
        Err(BlockFault::Short(0)),
    ),
    (
        "no UTF-8",
        ColumnType::Text,
        1,
        &[0, 1, 0xff],
        Err(BlockFault::BadText(0)),
    ),
    (
        "byte left over",
        ColumnType::Text,
        1,
        &[0, 1, 0x61, 0],
        Err(BlockFault::Long(3)),
    ),
];

#[test]
fn payloads_are_read_or_refused(rt: HostRuntime) -> Result<(), Fail> {
    for case in &NAMED {
        assert_read(&rt, rt.alloc(), *case)?;
    }
    Ok(())
}

static FAULTS: [Case; 12] = [
    (
        "no number",
        ColumnType::Int,
        1,
        &[],
        Err(BlockFault::Short(0)),
    ),
    (
        "7 bytes of a number",
        ColumnType::Int,
        1,
        &[0; 7],
        Err(BlockFault::Short(0)),
    ),
    (
        "the second number",
        ColumnType::Int,
        3,
        &[0; 15],
        Err(BlockFault::Short(8)),
    ),
    (
        "a number too many",
        ColumnType::Int,
        1,
        &[0; 16],
        Err(BlockFault::Long(8)),
    ),
    (
        "bytes of no number",
        ColumnType::Int,
        0,
        &[0],
        Err(BlockFault::Long(0)),
    ),
    (
        "one byte of a length",
        ColumnType::Text,
        2,
        &[0, 0, 0],
        Err(BlockFault::Short(2)),
    ),
    (
        "too long before too short",
        ColumnType::Text,
        1,
        &[0x10, 0x01],
        Err(BlockFault::TextTooLong(0)),
    ),
    (
        "too short before no UTF-8",
        ColumnType::Text,
        2,
        &[0, 1, 0x61, 0, 2, 0xff],
        Err(BlockFault::Short(3)),
    ),
    (
        "half of a character",
        ColumnType::Text,
        2,
        &[0, 1, 0x61, 0, 1, 0xc3],
        Err(BlockFault::BadText(1)),
    ),
    (
        "no truth",
        ColumnType::Bool,
        1,
        &[],
        Err(BlockFault::Short(0)),
    ),
    (
        "a byte too many before padding",
        ColumnType::Bool,
        3,
        &[0xa1, 0],
        Err(BlockFault::Long(1)),
    ),
    (
        "bytes of no truth",
        ColumnType::Bool,
        0,
        &[0],
        Err(BlockFault::Long(0)),
    ),
];

#[test]
fn the_first_fault_of_a_payload_is_named(rt: HostRuntime) -> Result<(), Fail> {
    for case in &FAULTS {
        assert_read(&rt, rt.alloc(), *case)?;
    }
    Ok(())
}

/// The payload of one text of so many letters a, whose length is before it in two bytes.
fn letters(alloc: Global, length: [u8; 2], count: usize) -> Result<Vec<u8>, NoMemory> {
    let mut bytes = Vec::from_slice(alloc, &length)?;
    for _ in 0..count {
        bytes.push(0x61)?;
    }
    Ok(bytes)
}

/// Whether the block has one text, of so many letters a.
fn has_letters(block: &Block, count: usize) -> bool {
    block.len() == 1
        && match block.get(0) {
            ValueRef::Text(text) => {
                text.len() == count && text.as_bytes().iter().all(|byte| *byte == 0x61)
            }
            _ => false,
        }
}

#[test]
fn the_longest_text_is_read(rt: HostRuntime) -> Result<(), Fail> {
    let longest = letters(rt.alloc(), [0x10, 0x00], 4_096)?;
    let block = read_block(rt.alloc(), ColumnType::Text, 1, &longest).map_err(|_| NoMemory)?;
    assert_holds(&rt, has_letters(&block, 4_096), "longest text");
    Ok(())
}

#[test]
fn a_longer_text_is_refused(rt: HostRuntime) -> Result<(), Fail> {
    let longer = letters(rt.alloc(), [0x10, 0x01], 4_097)?;
    let read = read_block(rt.alloc(), ColumnType::Text, 1, &longer);
    let want = Err(BlockFault::TextTooLong(0));
    Ok(assert_wanted(&rt, &read, want, "text too long")?)
}

/// Texts of no bytes and of one to four a character, and their payload.
const TEXTS: &[ValueRef<'static>] = &[
    ValueRef::Text(""),
    ValueRef::Text("a"),
    ValueRef::Text("é"),
    ValueRef::Text("€"),
    ValueRef::Text("𝄞"),
];

const TEXTS_BYTES: &[u8] = &[
    0, 0, 0, 1, 0x61, 0, 2, 0xc3, 0xa9, 0, 3, 0xe2, 0x82, 0xac, 0, 4, 0xf0, 0x9d, 0x84, 0x9e,
];

#[test]
fn texts_of_any_length_are_read_and_written_again(rt: HostRuntime) -> Result<(), Fail> {
    let alloc = rt.alloc();
    let block = read_block(alloc, ColumnType::Text, 5, TEXTS_BYTES).map_err(|_| NoMemory)?;
    assert_values(&rt, &block, TEXTS);
    let mut written = Vec::new(alloc);
    write_block(&block, &mut written)?;
    assert!(rt; written.as_slice() == TEXTS_BYTES);
    Ok(())
}

/// A value of the type.
fn sample(alloc: Global, ty: ColumnType, i: usize) -> Result<Value, NoMemory>
    ensures typed { IfOk result (λ value. has_type ty value ≡ true) }
    ensures short { IfOk result (λ value. is_too_long value ≡ false) }
{
    Ok(match ty {
        ColumnType::Int => Value::Int(if i % 2 == 0 { i64::MIN } else { i64::MAX }),
        ColumnType::Text => Value::Text(Text::new(String::from_str(
            alloc,
            if i % 2 == 0 { "Ann" } else { "é€𝄞" },
        )?)),
        ColumnType::Bool => Value::Bool(i % 3 == 0),
    })
}

/// So many values of the type.
fn samples(alloc: Global, ty: ColumnType, count: usize) -> Result<Vec<Value>, NoMemory>
    ensures counted { IfOk result (λ values. length values.items ≡ count) }
    ensures typed { IfOk result (λ values. IsTrue (list_all (has_type ty) values.items)) }
    ensures short { IfOk result (λ values. IsFalse (list_any is_too_long values.items)) }
{
    let mut values = Vec::new(alloc);
    for i in 0..count {
        let value = sample(alloc, ty, i)?;
        values.push(value)?;
    }
    Ok(values)
}

/// Whether a block has these values.
fn has_values(block: &Block, values: &[Value]) -> bool {
    for (i, value) in values.iter().enumerate() {
        if i >= block.len() || block.get(i) != value.as_ref() {
            return false;
        }
    }
    block.len() == values.len()
}

/// The payload of a block of these values.
fn written(alloc: Global, ty: ColumnType, values: &[Value]) -> Result<Vec<u8>, NoMemory>
    requires few { length values.now ≤ MAX_BLOCK_VALUES }
    requires typed { IsTrue (list_all (has_type ty) values.now) }
    requires short { IsFalse (list_any is_too_long values.now) }
{
    let block = Block::from_values(alloc, ty, values)?;
    let mut bytes = Vec::new(alloc);
    write_block(&block, &mut bytes)?;
    Ok(bytes)
}

/// That a block of so many values is read as it is written.
fn assert_read_again(
    rt: &impl Abort,
    alloc: Global,
    ty: ColumnType,
    count: usize,
) -> Result<(), NoMemory>
    requires { count ≤ MAX_BLOCK_VALUES }
{
    let values = samples(alloc, ty, count)?;
    let bytes = written(alloc, ty, &values)?;
    let read = read_block(alloc, ty, count, &bytes).map_err(|_| NoMemory)?;
    assert!(rt; read.column_type() == ty && has_values(&read, values.as_slice()));
    Ok(())
}

#[test]
fn blocks_are_written_and_read_again(rt: HostRuntime) -> Result<(), Fail> {
    for ty in [ColumnType::Int, ColumnType::Text, ColumnType::Bool] {
        for count in [0, 1, 7, 8, 9, 1_023, 1_024] {
            assert!(rt; count <= MAX_BLOCK_VALUES);
            assert_read_again(&rt, rt.alloc(), ty, count)?;
        }
    }
    Ok(())
}

/// Whether the run lends these values.
fn lends(run: BlockValues<'_>, want: &[ValueRef<'_>]) -> bool {
    let count = match run {
        BlockValues::Ints(ints) => ints.len(),
        BlockValues::Texts(texts) => texts.len(),
        BlockValues::Truths(truths) => truths.len(),
    };
    count == want.len()
        && want
            .iter()
            .enumerate()
            .all(|(i, value)| has_at(run, i, *value))
}

/// Whether the run has this value there.
fn has_at(run: BlockValues<'_>, i: usize, want: ValueRef<'_>) -> bool {
    match run {
        BlockValues::Ints(ints) => i < ints.len() && ValueRef::Int(ints[i]) == want,
        BlockValues::Texts(texts) => i < texts.len() && ValueRef::Text(texts.get(i)) == want,
        BlockValues::Truths(truths) => i < truths.len() && ValueRef::Bool(truths.get(i)) == want,
    }
}

/// That a block of three values and its copy lend these.
fn assert_lent(
    rt: &impl Abort,
    alloc: Global,
    ty: ColumnType,
    want: &[ValueRef<'_>],
) -> Result<(), NoMemory> {
    let block = Block::from_values(alloc, ty, &samples(alloc, ty, 3)?)?;
    assert_holds(rt, lends(block.values(), want), "what a block lends");
    let copy = block.copy()?;
    assert_holds(rt, lends(copy.values(), want), "what its copy lends");
    Ok(())
}

#[test]
fn a_block_and_its_copy_lend_their_values(rt: HostRuntime) -> Result<(), Fail> {
    static CASES: [(ColumnType, &[ValueRef<'static>]); 3] = [
        (
            ColumnType::Int,
            &[
                ValueRef::Int(i64::MIN),
                ValueRef::Int(i64::MAX),
                ValueRef::Int(i64::MIN),
            ],
        ),
        (
            ColumnType::Text,
            &[
                ValueRef::Text("Ann"),
                ValueRef::Text("é€𝄞"),
                ValueRef::Text("Ann"),
            ],
        ),
        (
            ColumnType::Bool,
            &[
                ValueRef::Bool(true),
                ValueRef::Bool(false),
                ValueRef::Bool(false),
            ],
        ),
    ];
    for (ty, lent) in &CASES {
        assert_lent(&rt, rt.alloc(), *ty, *lent)?;
    }
    Ok(())
}

/// A block of one value.
fn sampled(alloc: Global, ty: ColumnType) -> Result<Block, NoMemory>
    ensures { IfOk result (λ block. (block.ty ≡ ty) × (length block.values ≡ 1)) }
{
    let values = samples(alloc, ty, 1)?;
    Block::from_values(alloc, ty, &values)
}

/// That the bytes are these once the block is written behind those before, or as they were where a growth is refused.
fn assert_appended(
    rt: &impl Abort,
    alloc: Global,
    block: &Block,
    before: &[u8],
    written: &[u8],
) -> Result<(), NoMemory> {
    let mut bytes = Vec::from_slice(alloc, before)?;
    let left = match write_block(block, &mut bytes) {
        Ok(()) => written,
        Err(NoMemory) => before,
    };
    assert_holds(rt, bytes.as_slice() == left, "the bytes");
    Ok(())
}

#[test]
fn a_refused_growth_leaves_the_bytes(rt: HostRuntime) -> Result<(), Fail> {
    static BEFORE: [u8; 2] = [1, 2];
    static CASES: [(ColumnType, &[u8]); 3] = [
        (ColumnType::Int, &[1, 2, 0x80, 0, 0, 0, 0, 0, 0, 0]),
        (ColumnType::Text, &[1, 2, 0, 3, 0x41, 0x6e, 0x6e]),
        (ColumnType::Bool, &[1, 2, 0x80]),
    ];
    for (ty, written) in &CASES {
        let block = sampled(rt.alloc(), *ty)?;
        assert_appended(&rt, rt.alloc(), &block, &BEFORE, *written)?;
    }
    Ok(())
}

/// That a block of one value lends the pushed one after it, or itself alone where the growth is refused.
fn assert_push(
    rt: &impl Abort,
    alloc: Global,
    ty: ColumnType,
    value: ValueRef<'_>,
    both: &[ValueRef<'_>],
) -> Result<(), NoMemory>
    requires typed { IsTrue (has_type ty (value_of value)) }
    requires short { IsFalse (is_too_long (value_of value)) }
{
    let mut block = sampled(alloc, ty)?;
    let count = match block.push(value) {
        Ok(()) => 2,
        Err(NoMemory) => 1,
    };
    let left = both.get(..count).unwrap_or(both);
    assert_holds(rt, lends(block.values(), left), "after a push");
    Ok(())
}

#[test]
fn a_refused_push_leaves_the_block(rt: HostRuntime) -> Result<(), Fail> {
    let number = ValueRef::Int(7);
    let numbers = [ValueRef::Int(i64::MIN), number];
    assert_push(&rt, rt.alloc(), ColumnType::Int, number, &numbers)?;
    let text = ValueRef::Text("Bob");
    let texts = [ValueRef::Text("Ann"), text];
    assert_push(&rt, rt.alloc(), ColumnType::Text, text, &texts)?;
    let truth = ValueRef::Bool(false);
    let truths = [ValueRef::Bool(true), truth];
    assert_push(&rt, rt.alloc(), ColumnType::Bool, truth, &truths)?;
    Ok(())
}
