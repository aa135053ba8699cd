//! Rows that a schema refuses, and why.
use kt_base::{Cell, Kind, NoMemory, Octets, Row};
use kt_schema::{Column, ColumnList, RowNo, Schema, SchemaNo};
use std::alloc::Global;

fn column(alloc: Global, name: &[u8], kind: Kind, key: bool) -> Result<Column, NoMemory> {
    Ok(Column {
        id: 1,
        name: Octets::from_slice(alloc, name)?,
        kind,
        key,
        nullable: !key,
        default: None,
    })
}

/// A string key, a number key, and a number that may be null.
fn three(alloc: Global) -> Result<Vec<Column>, NoMemory> {
    let mut columns = Vec::new(alloc);
    columns.push(column(alloc, b"s", Kind::String, true)?)?;
    columns.push(column(alloc, b"n", Kind::Int8, true)?)?;
    columns.push(column(alloc, b"cpu", Kind::Int32, false)?)?;
    Ok(columns)
}

fn schema(alloc: Global) -> Result<Schema, SchemaNo> {
    match three(alloc) {
        Ok(columns) => Schema::new(alloc, ColumnList::of(columns)),
        Err(NoMemory) => Err(SchemaNo::Memory),
    }
}

/// A number, or null.
fn number(number: Option<i64>) -> Cell {
    match number {
        Some(number) => Cell::Int(number),
        None => Cell::Null,
    }
}

/// A row of a text of so many zeros and two numbers.
fn row(alloc: Global, zeros: usize, numbers: [Option<i64>; 2]) -> Result<Row, NoMemory> {
    let text = Cell::Bytes(Octets::of(vec![in alloc; 0u8; zeros]?));
    let [first, second] = numbers;
    Ok(Row::of(vec![in alloc; text, number(first), number(second)]?))
}

/// Rows of a text of so many zeros, a number and a number that may be null, and why they are refused.
const ROWS: [(usize, [Option<i64>; 2], Result<(), RowNo>); 5] = [
    (0, [Some(-128), None], Ok(())),
    (0, [Some(128), None], Err(RowNo::S6 { at: 1 })),
    (0, [None, None], Err(RowNo::S7 { at: 1 })),
    (65_537, [Some(0), Some(1)], Err(RowNo::S8 { at: 0 })),
    // Each of 8,191 zeros takes two bytes, the end of the text two and the number one.
    (8_191, [Some(0), Some(1)], Err(RowNo::S9 { length: 16_385 })),
];

#[test]
fn rows_are_refused(rt: HostRuntime) {
    let schema = schema(rt.alloc()).expect(&rt, "a schema");
    for &(zeros, numbers, answer) in &ROWS {
        let row = row(rt.alloc(), zeros, numbers).expect(&rt, "memory");
        assert!(rt; schema.check_row(&row) == answer);
    }
    let none = Row::of(Vec::new(rt.alloc()));
    assert!(rt; schema.check_row(&none) == Err(RowNo::S6 { at: 0 }));
}
