//! The table and the rows of tiles.

use super::*;
use crate::{row_of, tile_table};

/// What `tileMetadata` may be, and the number of the table that it names.
static NUMBERS: [(&str, Option<u32>); 7] = [
    (r#""tileMetadata":0"#, Some(0)),
    (r#""tileMetadata":10e-1"#, Some(1)),
    (r#""tileMetadata":4294967295"#, Some(4_294_967_295)),
    (r#""tileMetadata":4294967296"#, None),
    (r#""tileMetadata":-1"#, None),
    (r#""tileMetadata":"0""#, None),
    (r#""tilemetadata":0"#, None),
];

#[test]
fn tables_of_tiles(rt: HostRuntime) -> Result<(), Fail> {
    let alloc = rt.alloc();
    for (members, number) in &NUMBERS {
        let subtree = subtree(alloc, members)?;
        assert_eq!(rt; tile_table(alloc, &subtree)?, *number, "of {members}");
    }
    Ok(())
}

#[test]
fn rows_of_tiles(rt: HostRuntime) -> Result<(), Fail> {
    let subtree = subtree(rt.alloc(), r#""tileMetadata":0"#)?;
    for (index, row) in [(0, 0), (1, 1), (3, 2)] {
        if index < subtree.tiles().len() {
            assert_eq!(rt; row_of(&subtree, index), row);
        }
    }
    Ok(())
}
