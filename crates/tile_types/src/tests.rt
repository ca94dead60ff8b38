//! What no clause says of texts and keys.

use super::*;
use std::test::Fail;

/// A text of one byte more than lies in the value itself.
const LONG: &str = "31 bytes don't lie in the value";

#[test]
fn texts(rt: HostRuntime) -> Result<(), Fail> {
    let alloc = rt.alloc();
    assert_eq!(rt; LONG.len(), SHORT_TEXT + 1);
    for text in ["", "r/0", "30 bytes do lie in the value !", LONG] {
        let copy = Text::new(alloc, text)?.copy(alloc)?;
        assert_eq!(rt; copy.as_str(), text);
        assert!(rt; copy == Text::from(String::from_str(alloc, text)?));
    }
    assert!(rt; Text::new(alloc, "r/0")? != Text::new(alloc, "r/1")?);
    Ok(())
}

#[test]
fn texts_behind_each_other(rt: HostRuntime) -> Result<(), Fail> {
    let alloc = rt.alloc();
    for (front, more, whole) in [
        ("", "", ""),
        ("r", "/0", "r/0"),
        (
            "31 bytes don't lie in the valu",
            "",
            "31 bytes don't lie in the valu",
        ),
        (
            "31 bytes don't lie in the val",
            "u",
            "31 bytes don't lie in the valu",
        ),
        ("31 bytes don't lie in the valu", "e", LONG),
        ("", LONG, LONG),
        (LONG, "", LONG),
    ] {
        let text = Text::new(alloc, front)?.followed_by(alloc, more)?;
        assert_eq!(rt; text.as_str(), whole);
        assert_eq!(rt; Text::of_two(alloc, front, more)?.as_str(), whole);
    }
    Ok(())
}

#[test]
fn keys(rt: HostRuntime) -> Result<(), Fail> {
    let alloc = rt.alloc();
    let key = Key {
        kind: Kind::Tileset,
        address: Text::new(alloc, "http://tiles/t.json")?,
    };
    assert!(rt; key.copy(alloc)? == key);
    assert_eq!(rt;
        format!(in alloc; "{key:?}")?.as_str(),
        "Key { kind: Tileset, address: \"http://tiles/t.json\" }"
    );
    Ok(())
}
