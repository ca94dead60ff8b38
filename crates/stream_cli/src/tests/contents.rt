//! The contents of a cut: each is fetched once, and what is absent isn't shown.

use super::{
    CUT, File, LOADED, ONE_BYTE, PLAIN, ROOT, Row, TILE, TOP, check_all, check_over, files,
};
use bytes::Bytes;
use content_digest::CONTENT_LIMIT;
use source_port::{MemorySource, NumberList, Text};
use std::test::Fail;

/// A tile of error 100 with two children of error 0.
const TWO: [File; 1] = [File {
    address: ROOT,
    pieces: &[
        TOP,
        TILE,
        r#"100,"content":{"uri":"a.glb"},"children":["#,
        TILE,
        r#"0,"content":{"uri":"b.glb"}},"#,
        TILE,
        r#"0,"content":{"uri":"c.glb"}}]}}"#,
    ],
}];

/// Three children that show one address, one of them twice.
const SAME: [File; 1] = [File {
    address: ROOT,
    pieces: &[
        TOP,
        TILE,
        r#"100,"content":{"uri":"a.glb"},"children":["#,
        TILE,
        r#"0,"contents":[{"uri":"b.glb"},{"uri":"x.glb"},{"uri":"b.glb"}]},"#,
        TILE,
        r#"0,"content":{"uri":"x.glb"}},"#,
        TILE,
        r#"0,"content":{"uri":"b.glb"}}]}}"#,
    ],
}];

/// The contents of one byte, and of none.
const FEW: [File; 1] = [ONE_BYTE];

const NO_BYTE: File = File {
    address: "http://tiles/b.glb",
    pieces: &[],
};

const EMPTY: [File; 2] = [NO_BYTE, ONE_BYTE];

static ROWS: [Row; 6] = [
    Row {
        name: "a content that is missing",
        words: &CUT,
        files: &TWO,
        contents: &FEW,
        text: "cut 1\nshow r/1 http://tiles/c.glb 1 \
            ca978112ca1bbdcafac231b39a23dc4da786eff8147c4e72b9807785afee48bb\n",
        ..PLAIN
    },
    Row {
        name: "no content",
        words: &CUT,
        files: &TWO,
        text: "cut 0\n",
        ..PLAIN
    },
    Row {
        name: "a content of no byte",
        words: &CUT,
        files: &TWO,
        contents: &EMPTY,
        text: "cut 2\nshow r/0 http://tiles/b.glb 0 \
            e3b0c44298fc1c149afbf4c8996fb92427ae41e4649b934ca495991b7852b855\n\
            show r/1 http://tiles/c.glb 1 \
            ca978112ca1bbdcafac231b39a23dc4da786eff8147c4e72b9807785afee48bb\n",
        ..PLAIN
    },
    // A fourth fetch would fail: each address is fetched once, also where it is absent.
    Row {
        name: "an address that is shown thrice",
        words: &CUT,
        files: &SAME,
        failing_fetches: &[4],
        text: "cut 3\nshow r/0 http://tiles/b.glb 5 \
            2cf24dba5fb0a30e26e83b2ac5b9e29e1b161e5c1fa7425e73043362938b9824\n\
            show r/0 http://tiles/b.glb 5 \
            2cf24dba5fb0a30e26e83b2ac5b9e29e1b161e5c1fa7425e73043362938b9824\n\
            show r/2 http://tiles/b.glb 5 \
            2cf24dba5fb0a30e26e83b2ac5b9e29e1b161e5c1fa7425e73043362938b9824\n",
        ..LOADED
    },
    Row {
        name: "a first content that fails",
        words: &CUT,
        files: &TWO,
        failing_fetches: &[2],
        status: 3,
        fault: "fault 3 source 1\n",
        ..LOADED
    },
    Row {
        name: "a second content that fails",
        words: &CUT,
        files: &TWO,
        failing_fetches: &[3],
        status: 3,
        fault: "fault 3 source 1\n",
        ..LOADED
    },
];

#[test]
fn contents_of_a_cut(rt: HostRuntime) -> Result<(), Fail> {
    check_all(&rt, &ROWS)
}

#[test]
fn a_long_content(rt: HostRuntime) -> Result<(), Fail> {
    let alloc = rt.alloc();
    assert_eq!(rt; CONTENT_LIMIT, 67_108_864);
    let files = files(alloc, &TWO, &FEW)?;
    let mut source = MemorySource::new(files, NumberList::new(alloc));
    let bytes = Bytes::from_vec(vec![in alloc; 0; 67_108_865]?)?;
    source.add(Text::new(alloc, "http://tiles/b.glb")?, bytes)?;
    let row = Row {
        name: "a content one byte too long",
        words: &CUT,
        text: "cut 1\nshow r/1 http://tiles/c.glb 1 \
            ca978112ca1bbdcafac231b39a23dc4da786eff8147c4e72b9807785afee48bb\n",
        ..PLAIN
    };
    check_over(&rt, &row, &mut source)
}
