//! Bytes that are no payload, with the fault and the offset that a person gives them.
use crate::trees::assert_fault;
use codec::PayloadFault::{self, BadCell, BadColumn, BadKind, BadTable, Short};
use std::test::Fail;
use test_fixtures::schema;
use values::ColumnType;

/// Payloads of the table 7, whose columns are a number, which is the key, a text and a truth.
static CASES: [(&[u8], PayloadFault); 14] = [
    // A part's numbers are cut short, or its entries: no length that is claimed is believed.
    (&[0, 0, 0, 7, 0, 0, 0], Short(0)),
    (&[0, 0, 0, 7, 0xff, 0xff, 0xff, 0xff], Short(0)),
    (&[0, 0, 0, 7, 0, 0, 0, 0, 0, 0, 0, 8], Short(8)),
    // A table stands twice, or after a greater one.
    (
        &[0, 0, 0, 7, 0, 0, 0, 0, 0, 0, 0, 7, 0, 0, 0, 0],
        BadTable(8),
    ),
    (
        &[0, 0, 0, 7, 0, 0, 0, 0, 0, 0, 0, 3, 0, 0, 0, 0],
        BadTable(8),
    ),
    // An entry is cut short, or is of no kind.
    (&[0, 0, 0, 7, 0, 0, 0, 4, 0, 0, 0, 0], Short(8)),
    (&[0, 0, 0, 7, 0, 0, 0, 5, 0, 0, 0, 0, 0], BadKind(12)),
    (&[0, 0, 0, 7, 0, 0, 0, 5, 0, 0, 0, 0, 4], BadKind(12)),
    // A modify has no column, one of the key, or one past the last.
    (&[0, 0, 0, 7, 0, 0, 0, 5, 0, 0, 0, 0, 3], Short(13)),
    (&[0, 0, 0, 7, 0, 0, 0, 6, 0, 0, 0, 0, 3, 0], BadColumn(13)),
    (&[0, 0, 0, 7, 0, 0, 0, 6, 0, 0, 0, 0, 3, 3], BadColumn(13)),
    // A text has 4,097 bytes, or is no UTF-8.
    (
        &[0, 0, 0, 7, 0, 0, 0, 8, 0, 0, 0, 0, 3, 1, 0x10, 0x01],
        BadCell(14),
    ),
    (
        &[0, 0, 0, 7, 0, 0, 0, 9, 0, 0, 0, 0, 3, 1, 0, 1, 0xff],
        BadCell(14),
    ),
    // A truth is neither.
    (&[0, 0, 0, 7, 0, 0, 0, 7, 0, 0, 0, 0, 3, 2, 1], BadCell(14)),
];

#[test]
fn each_fault_is_named_with_its_place(rt: HostRuntime) -> Result<(), Fail> {
    let alloc = rt.alloc();
    let cols = [
        ("id", ColumnType::Int),
        ("name", ColumnType::Text),
        ("on", ColumnType::Bool),
    ];
    let schema = schema(alloc, &cols, 1)?;
    for (payload, fault) in &CASES {
        assert_fault(&rt, alloc, &schema, *payload, *fault)?;
    }
    Ok(())
}
