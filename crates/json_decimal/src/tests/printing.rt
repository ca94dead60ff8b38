//! Values that are printed, and strings that are added to lines.

use crate::{parse, print, print_text};
use std::alloc::Global;
use std::test::*;

/// A text of a value, and the one that is printed of it.
const TEXTS: [(&[u8], &[u8]); 8] = [
    (b" null ", b"null"),
    (b"[true ,\tfalse]", b"[true,false]"),
    (b"[ ]", b"[]"),
    (b"{ }\n", b"{}"),
    (
        b"[0, -0.50E+03, 1e-7, 12345678901234567890]",
        b"[0,-0.50E+03,1e-7,12345678901234567890]",
    ),
    (
        b"{\"b\": {\"\": [[], [{}, 1]]}, \"a\\n\": 2, \"b\": null}",
        b"{\"b\":{\"\":[[],[{},1]]},\"a\\u000a\":2,\"b\":null}",
    ),
    (
        b"\"\\\"\\\\\\/\\b\\f\\n\\r\\t\\u0000\\u001F \\u007F\"",
        b"\"\\\"\\\\/\\u0008\\u000c\\u000a\\u000d\\u0009\\u0000\\u001f \x7F\"",
    ),
    (
        b"\"a\\u00E9\\uD83D\\uDE00\xE2\x82\xAC\"",
        b"\"a\xC3\xA9\xF0\x9F\x98\x80\xE2\x82\xAC\"",
    ),
];

/// What is printed of the value of a text, whose numbers are spelled as `print` asks.
#[tactic(auto, using(crate::proofs::Printing::spells_numbers))]
fn printed_of(alloc: Global, text: &[u8]) -> Option<Vec<u8>> {
    let value = parse(alloc, text).ok()?;
    print(alloc, &value).ok()
}

#[test]
fn printed(rt: HostRuntime) -> Result<(), Fail> {
    for (text, wanted) in TEXTS {
        let printed = printed_of(rt.alloc(), text).ok_or("refused")?;
        assert!(rt; printed.as_slice() == wanted, "{text:?}");
        let again = printed_of(rt.alloc(), wanted).ok_or("refused")?;
        assert!(rt; again.as_slice() == wanted, "{wanted:?}");
    }
    Ok(())
}

#[test]
fn strings_of_a_line(rt: HostRuntime) -> Result<(), Fail> {
    let mut line = Vec::new(rt.alloc());
    print_text("", &mut line)?;
    print_text("a\tb\u{E9}\"", &mut line)?;
    assert!(rt; line.as_slice() == b"\"\"\"a\\u0009b\xC3\xA9\\\"\"".as_slice());
    Ok(())
}
