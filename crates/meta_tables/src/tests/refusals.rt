//! Tables that aren't read.

use super::*;

/// What stands in `propertyTables`, and the first cause why table 0 isn't read.
static REFUSALS: [(&str, TableError); 32] = [
    ("{}", TableError::Shape),
    ("[]", TableError::Shape),
    ("[1]", TableError::Shape),
    (r#"[{"count":2}]"#, TableError::Shape),
    (r#"[{"class":1,"count":2}]"#, TableError::Shape),
    (r#"[{"class":"C"}]"#, TableError::Shape),
    (r#"[{"class":"C","count":-1}]"#, TableError::Shape),
    (r#"[{"class":"C","count":4294967296}]"#, TableError::Shape),
    (
        r#"[{"class":"D","count":2,"properties":[]}]"#,
        TableError::Shape,
    ),
    (r#"[{"class":"D","count":2}]"#, TableError::UnknownClass),
    (
        r#"[{"class":"C","count":2,"properties":{"u8":null}}]"#,
        TableError::Shape,
    ),
    (
        r#"[{"class":"C","count":2,"properties":{"u8":{}}}]"#,
        TableError::Shape,
    ),
    (
        r#"[{"class":"C","count":2,"properties":{"u8":{"values":12}}}]"#,
        TableError::Shape,
    ),
    (
        r#"[{"class":"C","count":2,"properties":{"t":{"values":3}}}]"#,
        TableError::Shape,
    ),
    (
        r#"[{"class":"C","count":2,"properties":{"t":{"values":3,"stringOffsets":2,"stringOffsetType":"INT8"}}}]"#,
        TableError::Shape,
    ),
    (
        r#"[{"class":"C","count":2,"properties":{"u8":{"values":6}}}]"#,
        TableError::ViewRange,
    ),
    (
        r#"[{"class":"C","count":2,"properties":{"u8":{"values":7}}}]"#,
        TableError::ViewRange,
    ),
    (
        r#"[{"class":"C","count":17,"properties":{"u8":{"values":0}}}]"#,
        TableError::ViewRange,
    ),
    (
        r#"[{"class":"C","count":3,"properties":{"i64":{"values":0}}}]"#,
        TableError::ViewRange,
    ),
    (
        r#"[{"class":"C","count":9,"properties":{"b":{"values":1}}}]"#,
        TableError::ViewRange,
    ),
    (
        r#"[{"class":"C","count":3,"properties":{"e":{"values":4}}}]"#,
        TableError::ViewRange,
    ),
    (
        r#"[{"class":"C","count":4294967295,"properties":{"u64":{"values":0}}}]"#,
        TableError::ViewRange,
    ),
    (
        r#"[{"class":"C","count":4294967295,"properties":{"t":{"values":3,"stringOffsets":2}}}]"#,
        TableError::ViewRange,
    ),
    // Offsets are of 32 bits where nothing else is said.
    (
        r#"[{"class":"C","count":2,"properties":{"t":{"values":3,"stringOffsets":2}}}]"#,
        TableError::ViewRange,
    ),
    (
        r#"[{"class":"C","count":2,"properties":{"t":{"values":3,"stringOffsets":8,"stringOffsetType":"UINT8"}}}]"#,
        TableError::Offsets,
    ),
    (
        r#"[{"class":"C","count":2,"properties":{"t":{"values":1,"stringOffsets":2,"stringOffsetType":"UINT8"}}}]"#,
        TableError::Offsets,
    ),
    // One past 2^63 comes first.
    (
        r#"[{"class":"C","count":0,"properties":{"t":{"values":3,"stringOffsets":10,"stringOffsetType":"UINT64"}}}]"#,
        TableError::Offsets,
    ),
    // A byte that begins no character, and a cut inside one.
    (
        r#"[{"class":"C","count":1,"properties":{"t":{"values":0,"stringOffsets":9,"stringOffsetType":"UINT8"}}}]"#,
        TableError::NotUtf8,
    ),
    (
        r#"[{"class":"C","count":2,"properties":{"t":{"values":3,"stringOffsets":9,"stringOffsetType":"UINT8"}}}]"#,
        TableError::NotUtf8,
    ),
    // The first in the order of the class is answered, and of a repeated name the last counts.
    (
        r#"[{"class":"C","count":2,"properties":{"t":null,"u8":{"values":7}}}]"#,
        TableError::ViewRange,
    ),
    (
        r#"[{"class":"C","count":2,"properties":{"s":{"values":7},"t":{"values":3,"stringOffsets":9,"stringOffsetType":"UINT8"}}}]"#,
        TableError::NotUtf8,
    ),
    (
        r#"[{"class":"C","count":2,"properties":{"u8":{"values":0},"u8":{"values":6}}}]"#,
        TableError::ViewRange,
    ),
];

#[test]
fn causes(rt: HostRuntime) -> Result<(), Fail> {
    let alloc = rt.alloc();
    let schema = schema(alloc)?;
    for (tables, cause) in &REFUSALS {
        let members = format!(in alloc; r#""propertyTables":{}"#, tables)?;
        let subtree = subtree(alloc, members.as_str())?;
        let met = Table::read(alloc, &schema, &subtree, 0).err();
        assert_eq!(rt; met, Some(*cause), "of {tables}");
    }
    Ok(())
}
