//! The values of enums.

use super::{component_text, joined};
use std::process::Abort;
use std::test::Fail;

/// An enum's members, a value, and its name.
type Row = (&'static str, i128, Option<&'static str>);

const TWICE: &str =
    r#""values":[{"name":"A","value":1},{"name":"B","value":2},{"name":"C","value":1}]"#;

const WIDE: &str = concat!(
    r#""valueType":"UINT64","values":[{"name":"least","value":-0},"#,
    r#"{"name":"half","value":9223372036854775808},"#,
    r#"{"name":"most","value":1.8446744073709551615e19}]"#,
);

const SIGNED: &str = concat!(
    r#""values":[{"value":-9223372036854775808,"name":"least"},"#,
    r#"{"name":5,"name":"ten","value":100e-1}],"valueType":"INT64""#,
);

static NAMES: [Row; 10] = [
    (TWICE, 1, Some("A")),
    (TWICE, 2, Some("B")),
    (TWICE, 3, None),
    (WIDE, 0, Some("least")),
    (WIDE, 9_223_372_036_854_775_808, Some("half")),
    (WIDE, 18_446_744_073_709_551_615, Some("most")),
    (WIDE, 18_446_744_073_709_551_616, None),
    (SIGNED, -9_223_372_036_854_775_808, Some("least")),
    (SIGNED, 10, Some("ten")),
    (r#""values":[]"#, 0, None),
];

#[test]
fn names(rt: HostRuntime) -> Result<(), Fail> {
    for (own, value, name) in NAMES.iter() {
        let schema = joined(rt.alloc(), &[r#"{"enums":{"E":{"#, *own, "}}}"])?;
        let found = schema.enum_at(0).ok_or("no enum")?;
        let named = found.name_of(*value).map(|name| name.as_str());
        assert_eq!(rt; named, *name, "of {value}");
    }
    Ok(())
}

#[test]
fn accessors(rt: HostRuntime) -> Result<(), Fail> {
    let schema = joined(rt.alloc(), &[r#"{"enums":{"E":{"#, SIGNED, "}}}"])?;
    let found = schema.enum_at(0).ok_or("no enum")?;
    let [least, ten] = found.values() else {
        return Err("not two values".into());
    };
    assert_eq!(rt; component_text(found.component()), "INT64");
    assert_eq!(rt; least.value(), i128::from(i64::MIN));
    assert_eq!(rt; (ten.name().as_str(), ten.value()), ("ten", 10));
    assert_eq!(rt; found.component().byte_count(), 8);
    Ok(())
}
