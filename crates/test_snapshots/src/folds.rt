//! Folds, trees made consecutive and clashes that a person worked out, over the base table. The entries are written as a
//! person reads them: `1+15,Flo,5` is an insert at SID 1, `1-20` a delete, `2:2=7` a modify of column 2.
ghost use Rattle.std.specs.Prelude.{◌≡◌, IfOk};
ghost use Rattle.model.specs.Table.{IsTable};
ghost use Rattle.model.specs.Effects.{Effects, table_with};
ghost use Rattle.layers.specs.Over.{IsTreeOf, IsSmall, AreConsecutive, AreAligned};

mod refusals;

use crate::assertions::assert_text;
use crate::folds::refusals::{folded, passed};
use crate::images::{AMPLE, MANY, all_fit};
use delta::DeltaTree;
use layers::{Clash, Serialized};
use model::{ConflictRule, Write};
use oracle::{Effects, OrderedTable, canonical_entries};
use std::alloc::Global;
use std::process::Abort;
use std::test::Fail;
use test_fixtures::{ItemWrite, entries_text, item_columns, writes_of};
use values::Schema;

/// A tree over a table, and the table after its effects.
#[derive(Drop)]
struct Made {
    tree: DeltaTree,
    after: OrderedTable,
}

/// Two trees, the upper one over the image of the lower one.
#[derive(Drop)]
struct Stacked {
    lower: DeltaTree,
    upper: DeltaTree,
}

/// Two trees over one table.
#[derive(Drop)]
struct Aligned {
    x: DeltaTree,
    y: DeltaTree,
}

/// The tree of a transaction's writes over a table, as the plain program makes it.
fn make_tree(
    alloc: Global,
    schema: &Schema,
    table: &OrderedTable,
    writes: &[Write],
) -> Result<Made, Fail>
    requires { IsTable schema.now table.now }
    ensures { IfOk result (λ made. (x : Effects) × IsTreeOf schema.now table.now x made.tree × (made.after ≡ table_with table.now x)
        × IsTable schema.now made.after × IsSmall schema.now table.now) }
{
    if !all_fit(schema, writes) {
        return Err(Fail::new("a write doesn't fit"));
    }
    let rows = table.len();
    if rows >= MANY {
        return Err(Fail::new("many rows"));
    }
    let key_cols = schema.key_cols();
    let mut effects = Effects::new(alloc);
    table.write_all(key_cols, AMPLE, &mut effects, writes)?;
    let entries = canonical_entries(alloc, table, &effects)?;
    let count = entries.len();
    if count >= MANY {
        return Err(Fail::new("many entries"));
    }
    Ok(Made {
        tree: DeltaTree::from_sorted(alloc, key_cols, entries)?,
        after: table.with(&effects)?,
    })
}

static BASE: [ItemWrite; 3] = [
    ItemWrite::Insert(10, "Ann", 1),
    ItemWrite::Insert(20, "Bob", 2),
    ItemWrite::Insert(30, "Cid", 3),
];

/// The rows that each test is over.
fn base(alloc: Global, schema: &Schema) -> Result<OrderedTable, Fail>
    ensures { IfOk result (λ table. IsTable schema.now table) }
{
    let none = OrderedTable::new(alloc);
    let writes = writes_of(alloc, BASE.as_slice())?;
    Ok(make_tree(alloc, schema, &none, writes.as_slice())?.after)
}

/// The trees of two transactions, the second over what the first left.
fn stack(alloc: Global, steps: [&[ItemWrite]; 2]) -> Result<Stacked, Fail>
    ensures { IfOk result (λ made. AreConsecutive made.lower made.upper) }
{
    let first = writes_of(alloc, steps[0])?;
    let second = writes_of(alloc, steps[1])?;
    let schema = item_columns(alloc)?;
    let table = base(alloc, &schema)?;
    let lower = make_tree(alloc, &schema, &table, first.as_slice())?;
    let upper = make_tree(alloc, &schema, &lower.after, second.as_slice())?;
    Ok(Stacked {
        lower: lower.tree,
        upper: upper.tree,
    })
}

/// The trees of two transactions over the same rows.
fn align(alloc: Global, steps: [&[ItemWrite]; 2]) -> Result<Aligned, Fail>
    ensures { IfOk result (λ made. AreAligned made.x made.y) }
{
    let first = writes_of(alloc, steps[0])?;
    let second = writes_of(alloc, steps[1])?;
    let schema = item_columns(alloc)?;
    let table = base(alloc, &schema)?;
    let x = make_tree(alloc, &schema, &table, first.as_slice())?;
    let y = make_tree(alloc, &schema, &table, second.as_slice())?;
    Ok(Aligned {
        x: x.tree,
        y: y.tree,
    })
}

/// What became of a tree, as a person reads it.
fn answered(alloc: Global, serialized: &Serialized) -> Result<String, Fail> {
    match serialized {
        Serialized::Tree(tree) => Ok(entries_text(alloc, tree.iter())?),
        Serialized::Conflict(Clash { kind, x, y }) => {
            let mut text = String::new(alloc);
            write!(text, "{kind:?} x {x} y {y}")?;
            Ok(text)
        }
    }
}

/// That the tree has these entries.
fn assert_entries(
    rt: &impl Abort,
    alloc: Global,
    tree: &DeltaTree,
    want: &str,
    at: &str,
) -> Result<(), Fail> {
    let entries = entries_text(alloc, tree.iter())?;
    assert_text(rt, entries.as_str(), want, at);
    Ok(())
}

/// The lower and the upper writes, the entries of both, and what they fold to.
type Fold = (
    &'static [ItemWrite],
    &'static [ItemWrite],
    [&'static str; 2],
    &'static str,
);

/// That the second transaction's entries over the first one's fold into it so.
fn assert_fold(
    rt: &impl Abort,
    alloc: Global,
    (lower, upper, entries, want): Fold,
) -> Result<(), Fail> {
    let trees = stack(alloc, [lower, upper])?;
    let tree = folded(rt, alloc, &trees, entries)?;
    assert_entries(rt, alloc, &tree, want, "the entries folded")
}

static FOLDS: [Fold; 8] = [
    (
        &[ItemWrite::Delete(20)],
        &[
            ItemWrite::Insert(15, "Flo", 5),
            ItemWrite::Insert(25, "Dee", 4),
        ],
        ["1-20", "1+15,Flo,5 1+25,Dee,4"],
        "1+15,Flo,5 1-20 2+25,Dee,4",
    ),
    (
        &[ItemWrite::Delete(20)],
        &[ItemWrite::Insert(20, "Bea", 9)],
        ["1-20", "1+20,Bea,9"],
        "1+20,Bea,9 1-20",
    ),
    (
        &[ItemWrite::Insert(25, "Dee", 4)],
        &[ItemWrite::Set(25, 5)],
        ["2+25,Dee,4", "2:2=5"],
        "2+25,Dee,5",
    ),
    (
        &[ItemWrite::Insert(25, "Dee", 4)],
        &[ItemWrite::Delete(25)],
        ["2+25,Dee,4", "2-25"],
        "",
    ),
    (
        &[ItemWrite::Set(20, 9)],
        &[ItemWrite::Delete(20)],
        ["1:2=9", "1-20"],
        "1-20",
    ),
    (
        &[ItemWrite::Name(20, "Bea"), ItemWrite::Set(20, 9)],
        &[ItemWrite::Set(20, 4)],
        ["1:1=Bea 1:2=9", "1:2=4"],
        "1:1=Bea 1:2=4",
    ),
    (
        &[ItemWrite::Insert(5, "Eve", 0), ItemWrite::Delete(30)],
        &[
            ItemWrite::Delete(10),
            ItemWrite::Insert(10, "Abe", 8),
            ItemWrite::Name(20, "Bea"),
            ItemWrite::Set(20, 6),
            ItemWrite::Insert(35, "Gus", 7),
        ],
        ["0+5,Eve,0 2-30", "1+10,Abe,8 1-10 2:1=Bea 2:2=6 3+35,Gus,7"],
        "0+5,Eve,0 0+10,Abe,8 0-10 1:1=Bea 1:2=6 2-30 3+35,Gus,7",
    ),
    (
        &[
            ItemWrite::Delete(10),
            ItemWrite::Delete(20),
            ItemWrite::Delete(30),
        ],
        &[
            ItemWrite::Insert(5, "Eve", 0),
            ItemWrite::Insert(20, "Bea", 9),
            ItemWrite::Insert(25, "Dee", 4),
            ItemWrite::Insert(35, "Gus", 7),
        ],
        [
            "0-10 1-20 2-30",
            "0+5,Eve,0 0+20,Bea,9 0+25,Dee,4 0+35,Gus,7",
        ],
        "0+5,Eve,0 0-10 1+20,Bea,9 1-20 2+25,Dee,4 2-30 3+35,Gus,7",
    ),
];

#[test]
fn upper_trees_fold_into_lower_ones(rt: HostRuntime) -> Result<(), Fail> {
    for case in &FOLDS {
        assert_fold(&rt, rt.alloc(), *case)?;
    }
    Ok(())
}

/// The writes of two transactions, the entries of both, and what becomes of the first one's tree beside the second one's.
type Beside = (
    &'static [ItemWrite],
    &'static [ItemWrite],
    [&'static str; 2],
    &'static str,
);

/// That the first one's tree becomes this beside the second one's, by the rule.
fn assert_beside(
    rt: &impl Abort,
    alloc: Global,
    rule: ConflictRule,
    (first, second, entries, want): Beside,
) -> Result<(), Fail> {
    let trees = align(alloc, [first, second])?;
    let serialized = passed(rt, alloc, rule, &trees, entries)?;
    let answer = answered(alloc, &serialized)?;
    assert_text(rt, answer.as_str(), want, "beside the second");
    Ok(())
}

/// Trees over the same rows, and what becomes of the first one where changes to different columns pass.
static BESIDE: [Beside; 10] = [
    (
        &[ItemWrite::Insert(25, "Dee", 4)],
        &[ItemWrite::Delete(30)],
        ["2+25,Dee,4", "2-30"],
        "2+25,Dee,4",
    ),
    (
        &[ItemWrite::Set(30, 9)],
        &[
            ItemWrite::Insert(5, "Eve", 0),
            ItemWrite::Insert(25, "Dee", 4),
        ],
        ["2:2=9", "0+5,Eve,0 2+25,Dee,4"],
        "4:2=9",
    ),
    (
        &[ItemWrite::Set(30, 9)],
        &[ItemWrite::Insert(5, "Eve", 0)],
        ["2:2=9", "0+5,Eve,0"],
        "3:2=9",
    ),
    (
        &[ItemWrite::Delete(30)],
        &[ItemWrite::Delete(10)],
        ["2-30", "0-10"],
        "1-30",
    ),
    (
        &[ItemWrite::Name(20, "Bea"), ItemWrite::Set(20, 7)],
        &[ItemWrite::Set(20, 8)],
        ["1:1=Bea 1:2=7", "1:2=8"],
        "ModifyModify x 1 y 0",
    ),
    (
        &[ItemWrite::Delete(20)],
        &[ItemWrite::Name(20, "Bea"), ItemWrite::Set(20, 7)],
        ["1-20", "1:1=Bea 1:2=7"],
        "DeleteModify x 0 y 0",
    ),
    (
        &[ItemWrite::Delete(20), ItemWrite::Insert(20, "Bea", 9)],
        &[ItemWrite::Delete(20)],
        ["1+20,Bea,9 1-20", "1-20"],
        "DeleteDelete x 1 y 0",
    ),
    (
        &[ItemWrite::Delete(20), ItemWrite::Insert(20, "Bea", 9)],
        &[ItemWrite::Delete(20), ItemWrite::Insert(20, "Bob", 2)],
        ["1+20,Bea,9 1-20", "1+20,Bob,2 1-20"],
        "InsertInsert x 0 y 0",
    ),
    (
        &[ItemWrite::Name(20, "Bea")],
        &[ItemWrite::Set(20, 7)],
        ["1:1=Bea", "1:2=7"],
        "1:1=Bea",
    ),
    (
        &[ItemWrite::Set(20, 2)],
        &[ItemWrite::Set(20, 2)],
        ["1:2=2", "1:2=2"],
        "ModifyModify x 0 y 0",
    ),
];

#[test]
fn trees_pass_or_clash(rt: HostRuntime) -> Result<(), Fail> {
    for case in &BESIDE {
        assert_beside(&rt, rt.alloc(), ConflictRule::ByColumn, *case)?;
    }
    Ok(())
}

/// Trees over the same rows, and what becomes of the first one where any two modifies of a row clash.
static BESIDE_BY_ROW: [Beside; 7] = [
    (
        &[ItemWrite::Set(20, 7)],
        &[ItemWrite::Name(20, "Bea")],
        ["1:2=7", "1:1=Bea"],
        "ModifyModify x 0 y 0",
    ),
    (
        &[ItemWrite::Set(10, 4), ItemWrite::Set(20, 7)],
        &[
            ItemWrite::Insert(15, "Flo", 5),
            ItemWrite::Name(20, "Bea"),
            ItemWrite::Set(20, 8),
        ],
        ["0:2=4 1:2=7", "1+15,Flo,5 1:1=Bea 1:2=8"],
        "ModifyModify x 1 y 1",
    ),
    (
        &[ItemWrite::Name(20, "Bea")],
        &[ItemWrite::Delete(20)],
        ["1:1=Bea", "1-20"],
        "DeleteModify x 0 y 0",
    ),
    (
        &[ItemWrite::Delete(20)],
        &[ItemWrite::Set(20, 7)],
        ["1-20", "1:2=7"],
        "DeleteModify x 0 y 0",
    ),
    (
        &[ItemWrite::Set(30, 9)],
        &[ItemWrite::Name(20, "Bea"), ItemWrite::Insert(25, "Dee", 4)],
        ["2:2=9", "1:1=Bea 2+25,Dee,4"],
        "3:2=9",
    ),
    (
        &[ItemWrite::Set(30, 9)],
        &[ItemWrite::Delete(10), ItemWrite::Set(20, 7)],
        ["2:2=9", "0-10 1:2=7"],
        "1:2=9",
    ),
    (
        &[ItemWrite::Delete(20), ItemWrite::Insert(20, "Bea", 9)],
        &[ItemWrite::Set(20, 7)],
        ["1+20,Bea,9 1-20", "1:2=7"],
        "DeleteModify x 1 y 0",
    ),
];

#[test]
fn modifies_of_one_row_clash_by_row(rt: HostRuntime) -> Result<(), Fail> {
    for case in &BESIDE_BY_ROW {
        assert_beside(&rt, rt.alloc(), ConflictRule::ByRow, *case)?;
    }
    Ok(())
}

#[test]
fn serialize_passes_smaller_inserts_alone(rt: HostRuntime) -> Result<(), Fail> {
    static CASE: Beside = (
        &[
            ItemWrite::Insert(15, "Flo", 5),
            ItemWrite::Insert(18, "Gus", 8),
        ],
        &[
            ItemWrite::Delete(20),
            ItemWrite::Insert(16, "Hal", 6),
            ItemWrite::Insert(20, "Bea", 9),
        ],
        ["1+15,Flo,5 1+18,Gus,8", "1+16,Hal,6 1+20,Bea,9 1-20"],
        "1+15,Flo,5 2+18,Gus,8",
    );
    assert_beside(&rt, rt.alloc(), ConflictRule::ByColumn, CASE)
}
