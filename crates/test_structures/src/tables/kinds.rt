//! Columns that are filled value by value, and by a block, and what becomes of them as a table.
ghost use Rattle.std.specs.Prelude.{◌≡◌, IfOk};

use super::number;
use crate::assertions::assert_holds;
use blocks::Block;
use stable::{BuildFault, Column, StableTable};
use std::alloc::Global;
use std::test::Fail;
use test_fixtures::schema;
use values::{ColumnType, ValueRef};

#[test]
fn a_value_stands_after_the_others(rt: HostRuntime) -> Result<(), Fail> {
    let mut column = Column::new(rt.alloc(), ColumnType::Int);
    column.push(ValueRef::Int(7))?;
    column.push(ValueRef::Int(5))?;
    if column.len() == 2 {
        assert!(&rt; number(column.get(0)) == 7);
        assert!(&rt; number(column.get(1)) == 5);
    }
    assert!(&rt; column.len() == 2);
    assert!(&rt; column.column_type() == ColumnType::Int);
    Ok(())
}

#[test]
fn a_block_is_taken_whole(rt: HostRuntime) -> Result<(), Fail> {
    let mut block = Block::new(rt.alloc(), ColumnType::Int);
    block.push(ValueRef::Int(3))?;
    block.push(ValueRef::Int(9))?;
    let mut column = Column::new(rt.alloc(), ColumnType::Int);
    column.push_block(block)?;
    if column.len() == 2 {
        assert!(&rt; number(column.get(1)) == 9);
    }
    assert!(&rt; column.len() == 2);
    Ok(())
}

/// A column of two numbers.
fn of_two(alloc: Global, first: i64, second: i64) -> Result<Column, Fail>
    ensures { IfOk result (λ column. column.ty ≡ ColumnType.Int) }
{
    let mut column = Column::new(alloc, ColumnType::Int);
    column.push(ValueRef::Int(first))?;
    column.push(ValueRef::Int(second))?;
    Ok(column)
}

/// How many rows the table of such a column has, or its fault.
fn made_alone(alloc: Global, column: Column) -> Result<Result<u64, BuildFault>, Fail>
    requires { column.ty ≡ ColumnType.Int }
{
    let schema = schema(alloc, &[("id", ColumnType::Int)], 1)?;
    let mut columns = Vec::new(alloc);
    columns.push(column)?;
    match StableTable::from_columns(schema, columns) {
        Ok(table) => Ok(Ok(table.len())),
        Err(fault) => Ok(Err(fault)),
    }
}

#[test]
fn columns_that_ascend_are_a_table(rt: HostRuntime) -> Result<(), Fail> {
    static CASES: [(&str, i64, i64, Result<u64, BuildFault>); 3] = [
        ("ascending", 1, 2, Ok(2)),
        ("equal keys", 2, 2, Err(BuildFault::NotAscending(1))),
        ("a descent", 2, 1, Err(BuildFault::NotAscending(1))),
    ];
    for (label, first, second, becomes) in &CASES {
        let column = of_two(rt.alloc(), *first, *second)?;
        let found = made_alone(rt.alloc(), column)?;
        assert_holds(&rt, found == *becomes, *label);
    }
    Ok(())
}
