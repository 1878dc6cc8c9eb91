//! Schemas, rows, keys and values. What no clause says: the limits and the order of the tests, as a person would name them, and what a fault shows.
//! That a refused growth is answered by `NoMemory` shows under `rt try --test --fail-alloc N`, for N from 1 on: each `?`
//! below then ends its test with it. (A string that a test makes for itself ends it with `AllocError`.)
use crate::assertions::{assert_holds, assert_text};
use std::alloc::Global;
use std::process::Abort;
use std::test::Fail;
use values::{
    ColumnType, Key, NoMemory, Row, Schema, SchemaFault, ShapeFault, Text, Value, ValueRef,
    copy_texts,
};

/// As many names as a table may have columns, a line each.
const WIDEST: &str =
    "0\n1\n2\n3\n4\n5\n6\n7\n8\n9\n10\n11\n12\n13\n14\n15\n16\n17\n18\n19\n20\n21\n22\n23\n24\n25\n26\n27\n28\n29\n30\n31\n";

/// One name more.
const TOO_WIDE: &str =
    "0\n1\n2\n3\n4\n5\n6\n7\n8\n9\n10\n11\n12\n13\n14\n15\n16\n17\n18\n19\n20\n21\n22\n23\n24\n25\n26\n27\n28\n29\n30\n31\n32\n";

/// Columns of numbers, named by the lines.
fn numbers(alloc: Global, names: &str) -> Result<Vec<(String, ColumnType)>, NoMemory> {
    let mut cols = Vec::new(alloc);
    for name in names.lines() {
        cols.push((String::from_str(alloc, name)?, ColumnType::Int))?;
    }
    Ok(cols)
}

/// The columns `id`, which is the key, `name` and `open`.
fn base_schema(alloc: Global) -> Result<Schema, SchemaFault> {
    static COLUMNS: [(&str, ColumnType); 3] = [
        ("id", ColumnType::Int),
        ("name", ColumnType::Text),
        ("open", ColumnType::Bool),
    ];
    let mut cols = Vec::new(alloc);
    for (name, column) in &COLUMNS {
        let name = String::from_str(alloc, *name).map_err(|_| NoMemory)?;
        cols.push((name, *column)).map_err(|_| NoMemory)?;
    }
    Schema::new(alloc, cols, 1)
}

/// What is in a cell of a case.
#[derive(Clone, Copy)]
enum Given {
    Number,
    Name,
    Truth,
    /// 4,096 bytes, in 2,048 characters.
    Longest,
    /// 4,097 bytes, in 2,049 characters.
    TooLong,
}

fn cell(alloc: Global, given: Given) -> Result<Value, NoMemory> {
    match given {
        Given::Number => ValueRef::Int(10).copy(alloc),
        Given::Name => ValueRef::Text("Ann").copy(alloc),
        Given::Truth => ValueRef::Bool(true).copy(alloc),
        Given::Longest => Ok(Value::Text(Text::new(wide(alloc)?))),
        Given::TooLong => {
            let mut text = wide(alloc)?;
            text.push_str("x")?;
            Ok(Value::Text(Text::new(text)))
        }
    }
}

/// 2,048 characters of two bytes each.
fn wide(alloc: Global) -> Result<String, NoMemory> {
    let mut text = String::new(alloc);
    for _ in 0..2_048 {
        text.push_str("é")?;
    }
    Ok(text)
}

fn cells(alloc: Global, given: &[Given]) -> Result<Vec<Value>, NoMemory> {
    let mut values = Vec::new(alloc);
    for one in given {
        values.push(cell(alloc, *one)?)?;
    }
    Ok(values)
}

fn values_of(alloc: Global, lent: &[ValueRef]) -> Result<Vec<Value>, NoMemory> {
    let mut values = Vec::new(alloc);
    for value in lent {
        values.push(value.copy(alloc)?)?;
    }
    Ok(values)
}

/// What columns are, their names, how many are the key, and the first fault, if there is one.
type ColumnsCase = (&'static str, &'static str, usize, Option<SchemaFault>);

/// That columns have their first fault.
fn assert_columns(
    rt: &impl Abort,
    alloc: Global,
    (label, names, key_cols, fault): ColumnsCase,
) -> Result<(), NoMemory> {
    match Schema::new(alloc, numbers(alloc, names)?, key_cols) {
        Err(SchemaFault::NoMemory) => return Err(NoMemory),
        answer => assert_holds(rt, answer.err() == fault, label),
    }
    Ok(())
}

static COLUMN_FAULTS: [ColumnsCase; 15] = [
    ("no columns", "", 1, Some(SchemaFault::NoColumns)),
    ("no columns and no key", "", 0, Some(SchemaFault::NoColumns)),
    ("33 columns", TOO_WIDE, 1, Some(SchemaFault::TooManyColumns)),
    (
        "33 columns, no key",
        TOO_WIDE,
        0,
        Some(SchemaFault::TooManyColumns),
    ),
    ("no key", "a\n", 0, Some(SchemaFault::BadKeyCount)),
    ("5 key columns", WIDEST, 5, Some(SchemaFault::BadKeyCount)),
    (
        "a key above the columns",
        "a\nb\n",
        3,
        Some(SchemaFault::BadKeyCount),
    ),
    (
        "a bad key, a name twice",
        "a\na\n",
        3,
        Some(SchemaFault::BadKeyCount),
    ),
    (
        "a name thrice",
        "a\na\na\n",
        1,
        Some(SchemaFault::RepeatedName(1)),
    ),
    (
        "the first name twice",
        "a\nb\na\n",
        1,
        Some(SchemaFault::RepeatedName(2)),
    ),
    (
        "two names twice",
        "a\nb\nb\na\n",
        1,
        Some(SchemaFault::RepeatedName(2)),
    ),
    (
        "the empty name twice",
        "\na\n\n",
        2,
        Some(SchemaFault::RepeatedName(2)),
    ),
    ("32 columns, 4 key columns", WIDEST, 4, None),
    ("one column of no name", "\n", 1, None),
    ("nothing but the key, names in two cases", "a\nA\n", 2, None),
];

#[test]
fn the_first_fault_of_columns_is_named(rt: HostRuntime) -> Result<(), Fail> {
    for case in &COLUMN_FAULTS {
        assert_columns(&rt, rt.alloc(), *case)?;
    }
    Ok(())
}

/// That a schema shows the three columns.
fn assert_base(rt: &impl Abort, schema: &Schema) {
    static TYPES: [ColumnType; 3] = [ColumnType::Int, ColumnType::Text, ColumnType::Bool];
    assert!(rt; schema.width() == 3);
    assert!(rt; schema.key_cols() == 1);
    assert!(rt; schema.types() == TYPES.as_slice());
    for (col, name) in ["id", "name", "open"].iter().enumerate() {
        assert!(rt; col < schema.width());
        assert!(rt; schema.name(col) == *name);
        assert!(rt; schema.column_type(col) == schema.types()[col]);
    }
}

#[test]
fn a_schema_and_its_copy_show_the_columns(rt: HostRuntime) -> Result<(), Fail> {
    let made = base_schema(rt.alloc())?;
    assert_base(&rt, &made);
    assert_base(&rt, &made.copy()?);
    Ok(())
}

/// What cells are, the cells, and the answer to them.
type CellsCase = (&'static str, &'static [Given], Result<(), ShapeFault>);

#[test]
fn the_first_fault_of_a_row_is_named(rt: HostRuntime) -> Result<(), Fail> {
    use Given::{Longest, Name, Number, TooLong, Truth};
    static CASES: [CellsCase; 9] = [
        ("fits", &[Number, Name, Truth], Ok(())),
        ("4,096 bytes", &[Number, Longest, Truth], Ok(())),
        (
            "4,097 bytes",
            &[Number, TooLong, Truth],
            Err(ShapeFault::TextTooLong(1)),
        ),
        (
            "too long, then wrong",
            &[Number, TooLong, Name],
            Err(ShapeFault::TextTooLong(1)),
        ),
        ("too few", &[Number, Name], Err(ShapeFault::WrongCount)),
        (
            "too many, and wrong",
            &[Name, Name, Name, Name],
            Err(ShapeFault::WrongCount),
        ),
        (
            "a text as the key",
            &[Name, Name, Truth],
            Err(ShapeFault::WrongType(0)),
        ),
        (
            "two wrong types",
            &[Number, Truth, Number],
            Err(ShapeFault::WrongType(1)),
        ),
        (
            "a long text for a truth",
            &[Number, Name, TooLong],
            Err(ShapeFault::WrongType(2)),
        ),
    ];
    let schema = base_schema(rt.alloc())?;
    for (label, given, answer) in &CASES {
        let row = Row::new(cells(rt.alloc(), *given)?);
        assert_holds(&rt, schema.check_row(&row) == *answer, *label);
    }
    Ok(())
}

#[test]
fn the_first_fault_of_a_key_is_named(rt: HostRuntime) -> Result<(), Fail> {
    use Given::{Name, Number, Truth};
    static CASES: [CellsCase; 4] = [
        ("fits", &[Number], Ok(())),
        ("none", &[], Err(ShapeFault::WrongCount)),
        (
            "a whole row",
            &[Number, Name, Truth],
            Err(ShapeFault::WrongCount),
        ),
        ("a truth", &[Truth], Err(ShapeFault::WrongType(0))),
    ];
    let schema = base_schema(rt.alloc())?;
    for (label, given, answer) in &CASES {
        let key = Key::new(cells(rt.alloc(), *given)?);
        assert_holds(&rt, schema.check_key(&key) == *answer, *label);
    }
    Ok(())
}

#[test]
fn the_first_fault_of_a_cell_is_named(rt: HostRuntime) -> Result<(), Fail> {
    static CASES: [(&str, usize, Given, Result<(), ShapeFault>); 8] = [
        ("a text", 1, Given::Name, Ok(())),
        ("4,096 bytes", 1, Given::Longest, Ok(())),
        (
            "4,097 bytes",
            1,
            Given::TooLong,
            Err(ShapeFault::TextTooLong(1)),
        ),
        ("a truth", 2, Given::Truth, Ok(())),
        (
            "a number for a truth",
            2,
            Given::Number,
            Err(ShapeFault::WrongType(2)),
        ),
        (
            "past the last column",
            3,
            Given::Number,
            Err(ShapeFault::NoSuchColumn),
        ),
        ("the key", 0, Given::Number, Err(ShapeFault::KeyColumn)),
        (
            "the key, of a wrong type",
            0,
            Given::Name,
            Err(ShapeFault::KeyColumn),
        ),
    ];
    let schema = base_schema(rt.alloc())?;
    for (label, col, given, answer) in &CASES {
        let value = cell(rt.alloc(), *given)?;
        assert_holds(&rt, schema.check_cell(*col, &value) == *answer, *label);
    }
    Ok(())
}

/// Values from the least to the greatest. Bytes put the accent after z, and the character past the first 65,536 last.
static ASCENDING: [ValueRef<'static>; 15] = [
    ValueRef::Int(i64::MIN),
    ValueRef::Int(-10),
    ValueRef::Int(-9),
    ValueRef::Int(0),
    ValueRef::Int(i64::MAX),
    ValueRef::Text(""),
    ValueRef::Text("B"),
    ValueRef::Text("a"),
    ValueRef::Text("a\0"),
    ValueRef::Text("z"),
    ValueRef::Text("é"),
    ValueRef::Text("\u{ffff}"),
    ValueRef::Text("\u{10000}"),
    ValueRef::Bool(false),
    ValueRef::Bool(true),
];

/// Whether two values stand to each other as their places do, by each of their comparisons.
fn are_in_order(value: &Value, other: &Value, i: usize, j: usize) -> bool {
    value.cmp(other) == i.cmp(&j)
        && (value == other) == (i == j)
        && (value < other) == (i < j)
        && (value.as_ref() == other.as_ref()) == (i == j)
}

/// That two of these values stand to each other as their places do.
fn assert_order(
    rt: &impl Abort,
    alloc: Global,
    (i, lower): (usize, ValueRef<'_>),
    (j, upper): (usize, ValueRef<'_>),
) -> Result<(), NoMemory> {
    assert!(rt; lower.cmp(&upper) == i.cmp(&j));
    let value = lower.copy(alloc)?;
    let other = upper.copy(alloc)?;
    assert!(rt; are_in_order(&value, &other, i, j));
    Ok(())
}

#[test]
fn values_ascend_by_type_and_then_by_size_bytes_or_truth(rt: HostRuntime) -> Result<(), Fail> {
    for (i, lower) in ASCENDING.iter().enumerate() {
        for (j, upper) in ASCENDING.iter().enumerate() {
            assert_order(&rt, rt.alloc(), (i, *lower), (j, *upper))?;
        }
    }
    Ok(())
}

/// Keys from the least to the greatest.
static KEYS: [&[ValueRef<'static>]; 5] = [
    &[],
    &[ValueRef::Int(1)],
    &[ValueRef::Int(1), ValueRef::Text("a")],
    &[ValueRef::Int(1), ValueRef::Text("b")],
    &[ValueRef::Int(2), ValueRef::Text("a")],
];

/// That two of these keys stand to each other as their places do.
fn assert_key_order(
    rt: &impl Abort,
    alloc: Global,
    (i, lower): (usize, &[ValueRef<'_>]),
    (j, upper): (usize, &[ValueRef<'_>]),
) -> Result<(), NoMemory> {
    let key = Key::new(values_of(alloc, lower)?);
    let other = Key::new(values_of(alloc, upper)?);
    assert!(rt; key.cmp(&other) == i.cmp(&j));
    assert!(rt; (key == other) == (i == j));
    Ok(())
}

#[test]
fn keys_ascend_column_by_column(rt: HostRuntime) -> Result<(), Fail> {
    for (i, lower) in KEYS.iter().enumerate() {
        for (j, upper) in KEYS.iter().enumerate() {
            assert_key_order(&rt, rt.alloc(), (i, *lower), (j, *upper))?;
        }
    }
    Ok(())
}

#[test]
fn a_copied_row_or_key_holds_the_same_and_gives_it_back(rt: HostRuntime) -> Result<(), Fail> {
    let given = [Given::Number, Given::Name, Given::Truth];
    let row = Row::new(cells(rt.alloc(), &given)?).copy()?;
    let key = Key::new(cells(rt.alloc(), &given)?).copy()?;
    assert!(rt; row.cells() == key.cells());
    assert_gives_back(&rt, row, key.into_cells().as_slice());
    Ok(())
}

/// That a row gives these cells back.
fn assert_gives_back(rt: &impl Abort, row: Row, cells: &[Value]) {
    match row.into_cells() {
        Ok(given_back) => assert!(rt; given_back.as_slice() == cells),
        Err(_kept) => assert!(rt; false, "the row keeps its cells"),
    }
}

/// That a row keeps its cells, since another shares them.
fn assert_keeps(rt: &impl Abort, row: Row, cells: &[Value]) {
    match row.into_cells() {
        Ok(_given_back) => assert!(rt; false, "the row gives shared cells back"),
        Err(kept) => assert!(rt; kept.cells() == cells),
    }
}

/// A row whose values its copies share.
fn shared_row(alloc: Global, given: &[Given]) -> Result<Row, Fail> {
    Ok(Row::of_shared(Row::new(cells(alloc, given)?).into_shared()?))
}

/// That a row has two cells, the first of which is this number.
fn assert_begins_with(rt: &impl Abort, row: &Row, number: i64) {
    assert!(rt; row.cells().len() == 2);
    assert!(rt; row.cells().first() == Some(&Value::Int(number)));
}

#[test]
fn a_cell_that_is_set_in_one_of_two_rows_stays_in_the_other(rt: HostRuntime) -> Result<(), Fail> {
    let given = [Given::Number, Given::Name];
    let row = shared_row(rt.alloc(), &given)?;
    let mut shares = row.copy()?;
    assert!(rt; shares.cells().len() == 2);
    shares.set(0, Value::Int(20))?;
    assert_begins_with(&rt, &row, 10);
    assert_begins_with(&rt, &shares, 20);
    assert_keeps(&rt, row.copy()?, row.cells());
    let alike = cells(rt.alloc(), &given)?;
    assert_gives_back(&rt, row, alike.as_slice());
    Ok(())
}

#[test]
fn a_row_that_nobody_shares_is_set_in_place(rt: HostRuntime) -> Result<(), Fail> {
    let mut row = Row::new(cells(rt.alloc(), &[Given::Number, Given::Name])?);
    assert!(rt; row.cells().len() == 2);
    row.set(0, Value::Int(30))?;
    assert_begins_with(&rt, &row, 30);
    Ok(())
}

/// That a copy of the value says the same.
fn assert_copied(rt: &impl Abort, value: &Value) -> Result<(), NoMemory> {
    let copied = value.copy()?;
    assert!(rt; copied == *value);
    assert!(rt; copied.as_ref() == value.as_ref());
    Ok(())
}

#[test]
fn a_copied_value_says_the_same(rt: HostRuntime) -> Result<(), Fail> {
    static GIVEN: [Given; 4] = [Given::Number, Given::Name, Given::Truth, Given::TooLong];
    for given in &GIVEN {
        assert_copied(&rt, &cell(rt.alloc(), *given)?)?;
    }
    Ok(())
}

#[test]
fn a_copied_text_gives_the_string_back(rt: HostRuntime) -> Result<(), Fail> {
    let text = Text::new(String::from_str(rt.alloc(), "Ann")?).copy()?;
    assert!(rt; text.as_str() == "Ann");
    assert!(rt; text.into_string().as_str() == "Ann");
    Ok(())
}

#[test]
fn copied_texts_stand_in_their_order(rt: HostRuntime) -> Result<(), Fail> {
    let mut texts = Vec::new(rt.alloc());
    for text in ["Ann", "", "Zoë"] {
        texts.push(Text::new(String::from_str(rt.alloc(), text)?))?;
    }
    let copies = copy_texts(rt.alloc(), texts.as_slice())?;
    let mut left = copies.iter();
    for text in ["Ann", "", "Zoë"] {
        assert!(&rt; left.next().map(|copy| copy.as_str()) == Some(text));
    }
    assert!(rt; left.next().is_none());
    Ok(())
}

#[test]
fn schema_faults_show_as_their_names_and_numbers(rt: HostRuntime) -> Result<(), Fail> {
    static CASES: [(SchemaFault, &str); 5] = [
        (SchemaFault::NoColumns, "NoColumns"),
        (SchemaFault::TooManyColumns, "TooManyColumns"),
        (SchemaFault::BadKeyCount, "BadKeyCount"),
        (SchemaFault::RepeatedName(31), "RepeatedName 31"),
        (SchemaFault::NoMemory, "NoMemory"),
    ];
    for (fault, want) in &CASES {
        let text = fault.to_string(rt.alloc())?;
        assert_text(&rt, text.as_str(), *want, "a fault");
    }
    Ok(())
}

#[test]
fn shape_faults_show_as_their_names_and_numbers(rt: HostRuntime) -> Result<(), Fail> {
    static CASES: [(ShapeFault, &str); 5] = [
        (ShapeFault::WrongCount, "WrongCount"),
        (ShapeFault::WrongType(0), "WrongType 0"),
        (ShapeFault::TextTooLong(7), "TextTooLong 7"),
        (ShapeFault::NoSuchColumn, "NoSuchColumn"),
        (ShapeFault::KeyColumn, "KeyColumn"),
    ];
    for (fault, want) in &CASES {
        let text = fault.to_string(rt.alloc())?;
        assert_text(&rt, text.as_str(), *want, "a fault");
    }
    let text = NoMemory.to_string(rt.alloc())?;
    assert_text(&rt, text.as_str(), "NoMemory", "want of memory");
    Ok(())
}
