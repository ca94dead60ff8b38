//! Scripts that are read, and the line at which others are refused.

use crate::{ScriptError, ScriptLine, read_script, read_view, views_of_texts};
use std::alloc::Global;
use std::test::Fail;

/// A text, and the line at which it is refused.
#[derive(Clone, Copy)]
struct Row<'a> {
    text: &'a [u8],
    line: u64,
}

static REFUSED: [Row; 32] = [
    Row { text: b"", line: 1 },
    Row {
        text: b"look 0 @0,0,0:1:1/1:1\nreturn 0\nreturn 0\nend\n",
        line: 3,
    },
    // There is no end.
    Row {
        text: b"retry",
        line: 2,
    },
    Row {
        text: b"retry\n",
        line: 2,
    },
    Row {
        text: b"\n# note\n\n",
        line: 4,
    },
    // Words that are none, spaces, and carriage returns that are not dropped.
    Row {
        text: b"retry \nend",
        line: 1,
    },
    Row {
        text: b" retry\nend",
        line: 1,
    },
    Row {
        text: b"Retry\nend",
        line: 1,
    },
    Row {
        text: b"retry\rend",
        line: 1,
    },
    Row {
        text: b"retry\r\r\nend",
        line: 1,
    },
    Row {
        text: b"retry\nend\r",
        line: 2,
    },
    Row {
        text: b"retry\n\r\nretry\n\r\rend",
        line: 4,
    },
    // Bytes that are no UTF-8.
    Row {
        text: b"#\xff\n\xff\nend",
        line: 2,
    },
    Row {
        text: b"look 0 \xff@0,0,0:1:1/1:1\nend",
        line: 1,
    },
    Row {
        text: b"look \xff @0,0,0:1:1/1:1\nend",
        line: 1,
    },
    // Viewers.
    Row {
        text: b"look 8 @0,0,0:1:1/1:1\nend",
        line: 1,
    },
    Row {
        text: b"look 256 @0,0,0:1:1/1:1\nend",
        line: 1,
    },
    Row {
        text: b"look 00 @0,0,0:1:1/1:1\nend",
        line: 1,
    },
    Row {
        text: b"look -0 @0,0,0:1:1/1:1\nend",
        line: 1,
    },
    Row {
        text: b"look  @0,0,0:1:1/1:1\nend",
        line: 1,
    },
    // Words too few and too many, and a view that is none.
    Row {
        text: b"look 0\nend",
        line: 1,
    },
    Row {
        text: b"look 0 @0,0,0:1:1/1:1 \nend",
        line: 1,
    },
    Row {
        text: b"look 0 @0,0,0:01:1/1:1\nend",
        line: 1,
    },
    Row {
        text: b"look 0 @0,0,0:1:1/1:1\nsettle 0 @0,0,0:1:1/1:1\nend",
        line: 2,
    },
    Row {
        text: b"retry 0\nend",
        line: 1,
    },
    Row {
        text: b"end 0\nend",
        line: 1,
    },
    Row {
        text: b"look 0 @0,0,0:1:1/1:1:1,0,0,0:1,0,0,0:1,0,0,0:1,0,0,0:1,0,0,0:1,0,0,0:1,0,0,0:1,0,0,0:1,0,0,0:1,0,0,0:1,0,0,0:1,0,0,0:1,0,0,0:1,0,0,0:1,0,0,0:1,0,0,0:1,0,0,0\nend",
        line: 1,
    },
    // What may not follow.
    Row {
        text: b"settle 0\nend",
        line: 1,
    },
    Row {
        text: b"return 0\nend",
        line: 1,
    },
    Row {
        text: b"look 0 @0,0,0:1:1/1:1\nsettle 1\nend",
        line: 2,
    },
    Row {
        text: b"look 0 @0,0,0:1:1/1:1\nreturn 1\nend",
        line: 2,
    },
    Row {
        text: b"look 0 @0,0,0:1:1/1:1\nsettle 0\nreturn 0\n\nreturn 0\nreturn 0\nend",
        line: 6,
    },
];

/// The line at which a text is refused.
fn refused_at(alloc: Global, text: &[u8]) -> Option<u64> {
    match read_script(alloc, text) {
        Err(ScriptError::Line { number }) => Some(number),
        _ => None,
    }
}

#[test]
fn refused_scripts(rt: HostRuntime) {
    for row in REFUSED.iter() {
        assert_eq!(rt; refused_at(rt.alloc(), row.text), Some(row.line));
    }
}

/// Texts whose script is the end alone.
static ENDS: [&[u8]; 5] = [
    b"end",
    b"end\n",
    b"end\r\n",
    b"#\xff\xfe\r\n\r\n\nend\n",
    b"end\n\xff end 0\nreturn 7",
];

#[test]
fn ends(rt: HostRuntime) -> Result<(), Fail> {
    for text in ENDS.iter() {
        let script = read_script(rt.alloc(), text)?;
        assert!(rt; script.lines.as_slice() == [ScriptLine::End].as_slice());
    }
    Ok(())
}

static SIXTEEN: &str =
    "@0,0,0:1:1/1:1:1,0,0,0:1,0,0,0:1,0,0,0:1,0,0,0:1,0,0,0:1,0,0,0:1,0,0,0:1,0,0,0:1,0,0,0:1,0,0,0:1,0,0,0:1,0,0,0:1,0,0,0:1,0,0,0:1,0,0,0:1,0,0,0";

#[test]
fn a_script_of_all_lines(rt: HostRuntime) -> Result<(), Fail> {
    let text =
        b"look 7 @0,0,0:1:1/1:1:1,0,0,0:1,0,0,0:1,0,0,0:1,0,0,0:1,0,0,0:1,0,0,0:1,0,0,0:1,0,0,0:1,0,0,0:1,0,0,0:1,0,0,0:1,0,0,0:1,0,0,0:1,0,0,0:1,0,0,0:1,0,0,0\r\nsettle 7\n# note\nretry\nreturn 7\nreturn 7\nend\n";
    let script = read_script(rt.alloc(), text)?;
    let view = read_view(SIXTEEN).ok_or("a view")?;
    let lines = [
        ScriptLine::Look { viewer: 7, view },
        ScriptLine::Settle { viewer: 7 },
        ScriptLine::Retry,
        ScriptLine::Return { viewer: 7 },
        ScriptLine::Return { viewer: 7 },
        ScriptLine::End,
    ];
    assert!(rt; script.lines.as_slice() == lines.as_slice());
    Ok(())
}

#[test]
fn printed_texts(rt: HostRuntime) -> Result<(), Fail> {
    let alloc = rt.alloc();
    let refusal = ScriptError::Line { number: 3 };
    let text = format!(in alloc; "{refusal:?}: {refusal}")?;
    assert_eq!(rt; text.as_str(), "Line { number: 3 }: line 3");
    let memory = ScriptError::OutOfMemory;
    let text = format!(in alloc; "{memory:?}: {memory}")?;
    assert_eq!(rt; text.as_str(), "OutOfMemory: out of memory");
    Ok(())
}

#[test]
fn law(_rt: HostRuntime) {
    views_of_texts();
}
