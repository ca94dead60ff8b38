//! Property tables in memory.

mod cells;
mod refusals;
mod rows;

use crate::{Cell, Table, TableError};
use bytes::Bytes;
use json_decimal::parse;
use meta_schema::Schema;
use std::alloc::Global;
use std::test::Fail;
use subtree_binary::{Subtree, SubtreeError, read};

/// A class with a property of each kind, and two enums, of which one gives a value two names.
const SCHEMA: &str = concat!(
    r#"{"enums":{"E":{"values":[{"name":"low","value":1},{"name":"first","value":2},"#,
    r#"{"name":"second","value":2}]},"#,
    r#""S":{"valueType":"INT8","values":[{"name":"minus","value":-1}]}},"#,
    r#""classes":{"C":{"properties":{"#,
    r#""i8":{"type":"SCALAR","componentType":"INT8"},"#,
    r#""u8":{"type":"SCALAR","componentType":"UINT8"},"#,
    r#""i16":{"type":"SCALAR","componentType":"INT16"},"#,
    r#""u16":{"type":"SCALAR","componentType":"UINT16"},"#,
    r#""i32":{"type":"SCALAR","componentType":"INT32"},"#,
    r#""u32":{"type":"SCALAR","componentType":"UINT32"},"#,
    r#""i64":{"type":"SCALAR","componentType":"INT64"},"#,
    r#""u64":{"type":"SCALAR","componentType":"UINT64"},"#,
    r#""b":{"type":"BOOLEAN"},"t":{"type":"STRING"},"#,
    r#""e":{"type":"ENUM","enumType":"E"},"s":{"type":"ENUM","enumType":"S"},"#,
    r#""f":{"type":"SCALAR","componentType":"FLOAT32"}}}}}"#
);

/// Buffers and buffer views, which `CHUNK` has the bytes of, but for those of the second buffer.
const VIEWS: &str = concat!(
    r#""buffers":[{"byteLength":48},{"byteLength":8,"uri":"x"}],"bufferViews":["#,
    // 0: numbers. 1: truth values. 2 and 3: offsets of 8 bits and texts. 4: values of an enum.
    r#"{"buffer":0,"byteLength":16},"#,
    r#"{"buffer":0,"byteOffset":8,"byteLength":1},"#,
    r#"{"buffer":0,"byteOffset":16,"byteLength":3},"#,
    r#"{"buffer":0,"byteOffset":20,"byteLength":3},"#,
    r#"{"buffer":0,"byteOffset":24,"byteLength":4},"#,
    // 5: another file. 6: past the buffer. 7: past 64 bits.
    r#"{"buffer":1,"byteLength":8},"#,
    r#"{"buffer":0,"byteOffset":48,"byteLength":2},"#,
    r#"{"buffer":0,"byteOffset":9223372036854775807,"byteLength":9223372036854775807},"#,
    // 8: offsets that fall. 9: offsets that cut a character. 10: offsets of 64 bits.
    r#"{"buffer":0,"byteOffset":28,"byteLength":3},"#,
    r#"{"buffer":0,"byteOffset":32,"byteLength":3},"#,
    r#"{"buffer":0,"byteLength":24},"#,
    // 11: the bits of tiles.
    r#"{"buffer":0,"byteOffset":47,"byteLength":1}],"#
);

const CHUNK: [u8; 48] = [
    0xfe, 0xff, 0xff, 0xff, 0xff, 0xff, 0xff, 0xff, 2, 1, 3, 0, 0, 0, 0, 0, // 0
    0, 2, 3, 0, 0xc3, 0xa4, b'x', 0, 2, 0, 7, 0, 0, 2, 1, 0, // 16
    0, 1, 3, 0, 0, 0, 0, 0, 0, 0, 0, 0, 0, 0, 0, 0x0b, // 32
];

/// A subtree of a quadtree, of two levels, with these members in its JSON chunk. Its tiles are 0, 1
/// and 3.
fn subtree(alloc: Global, members: &str) -> Result<Subtree, SubtreeError> {
    let json = format!(in alloc;
        concat!(
            r#"{{{}{},"tileAvailability":{{"bitstream":11}},"childSubtreeAvailability":"#,
            r#"{{"constant":0}}}}"#
        ),
        VIEWS,
        members
    )?;
    let mut bytes = Vec::from_slice(alloc, b"subt\x01\0\0\0")?;
    bytes.extend_from_slice(&(json.len() as u64).to_le_bytes())?;
    bytes.extend_from_slice(&(CHUNK.len() as u64).to_le_bytes())?;
    bytes.extend_from_slice(json.as_bytes())?;
    bytes.extend_from_slice(&CHUNK)?;
    let bytes = Bytes::copy_from_slice(alloc, &bytes)?;
    read(alloc, &bytes, false, 2, 0)
}

fn schema(alloc: Global) -> Result<Schema, Fail> {
    let json = parse(alloc, SCHEMA.as_bytes())?;
    Ok(Schema::read(alloc, &json)?)
}
