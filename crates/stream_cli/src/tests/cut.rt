//! Cuts of one document.

use super::{CUT, File, LOADED, ROOT, Row, TILE, TOP, check_all};
use std::test::Fail;

/// The words of views from ten metres above, on a taller screen; from the origin; and with a plane.
const TALL: [&str; 3] = ["cut", "t.json", "@0,0,10000:1080:1/2:256"];

const INSIDE: [&str; 3] = ["cut", "t.json", "@0,0,0:1000:1/2:256"];

const TOUCHING: [&str; 3] = ["cut", "t.json", "@0,0,10000:1000:1/2:256:1,0,0,-5000"];

const PARTING: [&str; 3] = ["cut", "t.json", "@0,0,10000:1000:1/2:256:1,0,0,-5001"];

/// One tile.
const ONE: [File; 1] = [File {
    address: ROOT,
    pieces: &[TOP, TILE, r#"1,"content":{"uri":"a.glb"}}}"#],
}];

/// A tile of error 100 with two children of error 0.
const TWO: [File; 1] = [File {
    address: ROOT,
    pieces: &[
        TOP,
        TILE,
        r#"100,"content":{"uri":"a.glb"},"children":["#,
        TILE,
        r#"0,"content":{"uri":"b.glb"}},"#,
        TILE,
        r#"0,"content":{"uri":"c.glb"}}]}}"#,
    ],
}];

/// A tile of error 0 with one child, and tiles of other errors and refinements.
const EXACT: [File; 1] = [File {
    address: ROOT,
    pieces: &[
        TOP,
        TILE,
        r#"0,"content":{"uri":"a.glb"},"children":["#,
        TILE,
        r#"0,"content":{"uri":"b.glb"}}]}}"#,
    ],
}];

const LEAST: [File; 1] = [File {
    address: ROOT,
    pieces: &[
        TOP,
        TILE,
        r#"0.000001,"content":{"uri":"a.glb"},"children":["#,
        TILE,
        r#"0,"content":{"uri":"b.glb"}}]}}"#,
    ],
}];

const ALLOWED: [File; 1] = [File {
    address: ROOT,
    pieces: &[
        TOP,
        TILE,
        r#"0.08,"content":{"uri":"a.glb"},"children":["#,
        TILE,
        r#"0,"content":{"uri":"b.glb"}}]}}"#,
    ],
}];

const GREATER: [File; 1] = [File {
    address: ROOT,
    pieces: &[
        TOP,
        TILE,
        r#"0.080001,"content":{"uri":"a.glb"},"children":["#,
        TILE,
        r#"0,"content":{"uri":"b.glb"}}]}}"#,
    ],
}];

const ADDING: [File; 1] = [File {
    address: ROOT,
    pieces: &[
        TOP,
        TILE,
        r#"1,"refine":"add","content":{"uri":"a.glb"},"children":["#,
        TILE,
        r#"0,"content":{"uri":"b.glb"}}]}}"#,
    ],
}];

const REPLACING: [File; 1] = [File {
    address: ROOT,
    pieces: &[
        TOP,
        TILE,
        r#"1,"refine":"Replace","content":{"uri":"a.glb"},"children":["#,
        TILE,
        r#"0,"content":{"uri":"b.glb"}}]}}"#,
    ],
}];

static ROWS: [Row; 12] = [
    Row {
        name: "one tile",
        words: &TALL,
        files: &ONE,
        text: "cut 1\n\
            show r http://tiles/a.glb 3 \
            ba7816bf8f01cfea414140de5dae2223b00361a396177a9cb410ff61f20015ad\n",
        ..LOADED
    },
    Row {
        name: "two children",
        words: &CUT,
        files: &TWO,
        text: "cut 2\n\
            show r/0 http://tiles/b.glb 5 \
            2cf24dba5fb0a30e26e83b2ac5b9e29e1b161e5c1fa7425e73043362938b9824\n\
            show r/1 http://tiles/c.glb 1 \
            ca978112ca1bbdcafac231b39a23dc4da786eff8147c4e72b9807785afee48bb\n",
        ..LOADED
    },
    Row {
        name: "no distance, no error",
        words: &INSIDE,
        files: &EXACT,
        text: "cut 1\n\
            show r http://tiles/a.glb 3 \
            ba7816bf8f01cfea414140de5dae2223b00361a396177a9cb410ff61f20015ad\n",
        ..LOADED
    },
    Row {
        name: "no distance, some error",
        words: &INSIDE,
        files: &LEAST,
        text: "cut 1\n\
            show r/0 http://tiles/b.glb 5 \
            2cf24dba5fb0a30e26e83b2ac5b9e29e1b161e5c1fa7425e73043362938b9824\n",
        ..LOADED
    },
    Row {
        name: "an error that is allowed",
        words: &CUT,
        files: &ALLOWED,
        text: "cut 1\n\
            show r http://tiles/a.glb 3 \
            ba7816bf8f01cfea414140de5dae2223b00361a396177a9cb410ff61f20015ad\n",
        ..LOADED
    },
    Row {
        name: "an error that isn't",
        words: &CUT,
        files: &GREATER,
        text: "cut 1\n\
            show r/0 http://tiles/b.glb 5 \
            2cf24dba5fb0a30e26e83b2ac5b9e29e1b161e5c1fa7425e73043362938b9824\n",
        ..LOADED
    },
    Row {
        name: "a plane that touches",
        words: &TOUCHING,
        files: &ONE,
        text: "cut 1\n\
            show r http://tiles/a.glb 3 \
            ba7816bf8f01cfea414140de5dae2223b00361a396177a9cb410ff61f20015ad\n",
        ..LOADED
    },
    Row {
        name: "a plane that parts",
        words: &PARTING,
        files: &ONE,
        text: "cut 0\n",
        ..LOADED
    },
    Row {
        name: "children beside",
        words: &CUT,
        files: &ADDING,
        text: "cut 2\n\
            show r http://tiles/a.glb 3 \
            ba7816bf8f01cfea414140de5dae2223b00361a396177a9cb410ff61f20015ad\n\
            show r/0 http://tiles/b.glb 5 \
            2cf24dba5fb0a30e26e83b2ac5b9e29e1b161e5c1fa7425e73043362938b9824\n",
        ..LOADED
    },
    Row {
        name: "children in place",
        words: &CUT,
        files: &REPLACING,
        text: "cut 1\n\
            show r/0 http://tiles/b.glb 5 \
            2cf24dba5fb0a30e26e83b2ac5b9e29e1b161e5c1fa7425e73043362938b9824\n",
        ..LOADED
    },
    Row {
        name: "a put that fails",
        words: &CUT,
        files: &TWO,
        failing_puts: &[2],
        status: 4,
        fault: "fault 4 out 1\n",
        text: "cut 2\n",
        ..LOADED
    },
    // A fourth fetch and a fourth put would fail: there are none.
    Row {
        name: "no call too many",
        words: &CUT,
        files: &TWO,
        failing_fetches: &[4],
        failing_puts: &[4],
        text: "cut 2\n\
            show r/0 http://tiles/b.glb 5 \
            2cf24dba5fb0a30e26e83b2ac5b9e29e1b161e5c1fa7425e73043362938b9824\n\
            show r/1 http://tiles/c.glb 1 \
            ca978112ca1bbdcafac231b39a23dc4da786eff8147c4e72b9807785afee48bb\n",
        ..LOADED
    },
];

#[test]
fn cuts(rt: HostRuntime) -> Result<(), Fail> {
    check_all(&rt, &ROWS)
}
