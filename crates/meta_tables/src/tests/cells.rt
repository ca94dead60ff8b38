//! Cells of columns.

use super::*;
use std::process::Abort;

/// What a cell is.
enum Expected {
    Whole(i128),
    Truth(bool),
    Words(&'static str),
    Named(&'static str),
    Unnamed(i128),
    Skipped,
}

fn is(cell: Cell<'_>, expected: &Expected) -> bool {
    match (cell, expected) {
        (Cell::Whole { value }, Expected::Whole(n)) => value == *n,
        (Cell::Truth { value }, Expected::Truth(truth)) => value == *truth,
        (Cell::Words { text }, Expected::Words(words)) => text == *words,
        (Cell::Named { name }, Expected::Named(words)) => name.as_str() == *words,
        (Cell::Unnamed { value }, Expected::Unnamed(n)) => value == *n,
        (Cell::Skipped, Expected::Skipped) => true,
        _ => false,
    }
}

/// The name of a property, what the table says of it, and its cells in two rows.
static CELLS: [(&str, &str, Expected, Expected); 15] = [
    (
        "i8",
        r#"{"values":0}"#,
        Expected::Whole(-2),
        Expected::Whole(-1),
    ),
    (
        "u8",
        r#"{"values":0}"#,
        Expected::Whole(254),
        Expected::Whole(255),
    ),
    (
        "i16",
        r#"{"values":0}"#,
        Expected::Whole(-2),
        Expected::Whole(-1),
    ),
    (
        "u16",
        r#"{"values":0}"#,
        Expected::Whole(65_534),
        Expected::Whole(65_535),
    ),
    (
        "i32",
        r#"{"values":0}"#,
        Expected::Whole(-2),
        Expected::Whole(-1),
    ),
    (
        "u32",
        r#"{"values":0}"#,
        Expected::Whole(4_294_967_294),
        Expected::Whole(4_294_967_295),
    ),
    (
        "i64",
        r#"{"values":0}"#,
        Expected::Whole(-2),
        Expected::Whole(196_866),
    ),
    (
        "u64",
        r#"{"values":0}"#,
        Expected::Whole(18_446_744_073_709_551_614),
        Expected::Whole(196_866),
    ),
    (
        "b",
        r#"{"values":1}"#,
        Expected::Truth(false),
        Expected::Truth(true),
    ),
    (
        "t",
        r#"{"values":3,"stringOffsets":2,"stringOffsetType":"UINT8"}"#,
        Expected::Words("ä"),
        Expected::Words("x"),
    ),
    (
        "e",
        r#"{"values":4}"#,
        Expected::Named("first"),
        Expected::Unnamed(7),
    ),
    (
        "s",
        r#"{"values":0}"#,
        Expected::Unnamed(-2),
        Expected::Named("minus"),
    ),
    // One that the schema skips isn't looked at, nor the bytes of a view outside the binary chunk.
    ("f", "null", Expected::Skipped, Expected::Skipped),
    (
        "u64",
        r#"{"values":5}"#,
        Expected::Skipped,
        Expected::Skipped,
    ),
    (
        "t",
        r#"{"values":7,"stringOffsets":5}"#,
        Expected::Skipped,
        Expected::Skipped,
    ),
];

fn check_cells<R: Abort>(
    rt: &R,
    table: &Table<'_>,
    name: &str,
    first: &Expected,
    second: &Expected,
) -> Result<(), Fail> {
    assert!(rt; table.count() == 2, "of {name}");
    assert!(rt; table.columns() == 1, "of {name}");
    assert_eq!(rt; table.column_name(0).as_str(), name);
    assert!(rt; is(table.cell(0, 0), first), "of {name}");
    assert!(rt; is(table.cell(1, 0), second), "of {name}");
    Ok(())
}

#[test]
fn cells_of_each_kind(rt: HostRuntime) -> Result<(), Fail> {
    let alloc = rt.alloc();
    let schema = schema(alloc)?;
    for (name, value, first, second) in &CELLS {
        let members = format!(in alloc;
            r#""propertyTables":[{{"class":"C","count":2,"properties":{{"{}":{}}}}}]"#,
            name, value
        )?;
        let subtree = subtree(alloc, members.as_str())?;
        match Table::read(alloc, &schema, &subtree, 0) {
            Ok(table) => check_cells(&rt, &table, name, first, second)?,
            Err(cause) => assert!(rt; false, "{cause} of {name}"),
        }
    }
    Ok(())
}
