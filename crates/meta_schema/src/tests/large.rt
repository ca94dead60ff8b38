//! A schema of many values and many properties.

use super::outcome;
use std::alloc::Global;
use std::fmt::Write;
use std::process::Abort;
use std::test::Fail;

const MANY: u32 = 10_000;

/// Adds so many pieces, each a front, a number from 0 and a back.
fn push_pieces(text: &mut String, front: &str, back: &str) -> Result<(), Fail> {
    for number in 0..MANY {
        write!(text, "{front}{number}{back}")?;
    }
    Ok(())
}

fn large(alloc: Global) -> Result<String, Fail> {
    let mut text = String::from_str(alloc, r#"{"enums":{"E":{"values":["#)?;
    push_pieces(&mut text, r#"{"name":"A","value":"#, "},")?;
    text.push_str(r#"{"name":"A","value":0}]}},"classes":{"c":{"properties":{"#)?;
    push_pieces(&mut text, r#""p"#, r#"":{"type":"ENUM","enumType":"E"},"#)?;
    text.push_str(r#""p":{"type":"STRING"}}}}}"#)?;
    Ok(text)
}

#[test]
fn many(rt: HostRuntime) -> Result<(), Fail> {
    let text = large(rt.alloc())?;
    let schema = outcome(rt.alloc(), text.as_str())?;
    let class = schema.class("c").ok_or("no class")?;
    let found = schema.enum_at(0).ok_or("no enum")?;
    assert_eq!(rt;
        (class.properties().len(), found.values().len()),
        (10_001, 10_001)
    );
    Ok(())
}
