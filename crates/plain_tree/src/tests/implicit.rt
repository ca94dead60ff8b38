//! Trees with implicit tiles.

use super::Further;
use super::lines::tree_lines;
use super::nest::tree_volumes;
use super::sizes::size;
use super::subtrees::{BARE, ONE_EACH, Subtree, THREE_EACH, store_of_all};
use crate::{PlainError, PlainTree};
use std::alloc::Global;
use std::process::Abort;
use std::test::Fail;
use tile_types::Kind;

/// A root tile, the further documents, the subtrees, and the lines of the tree.
type Row = (
    &'static str,
    &'static [Further],
    &'static [Subtree],
    &'static str,
);

/// The root's subtree of the quadtree.
const ROOT: &str = "http://tiles/s/0.0.0.subtree";

/// A JSON chunk: the first byte of the binary chunk tells of the tiles, and nothing is below them.
const TILES: &str = r#"{"buffers":[{"byteLength":8}],
    "bufferViews":[{"buffer":0,"byteOffset":0,"byteLength":1}],
    "tileAvailability":{"bitstream":0},"childSubtreeAvailability":{"constant":0}}"#;

/// The same, where the second byte tells of the contents.
const CONTENTS: &str = r#"{"buffers":[{"byteLength":8}],
    "bufferViews":[{"buffer":0,"byteOffset":0,"byteLength":1},
    {"buffer":0,"byteOffset":1,"byteLength":1}],
    "tileAvailability":{"bitstream":0},"contentAvailability":[{"bitstream":1}],
    "childSubtreeAvailability":{"constant":0}}"#;

/// Each tile is there, and the first two bytes of the binary chunk tell of the child subtrees.
const BELOW: &str = r#"{"buffers":[{"byteLength":8}],
    "bufferViews":[{"buffer":0,"byteOffset":0,"byteLength":2}],
    "tileAvailability":{"constant":1},"childSubtreeAvailability":{"bitstream":0}}"#;

/// Each tile is there, and nothing is below them.
const ALL: &str = r#"{"tileAvailability":{"constant":1},
    "childSubtreeAvailability":{"constant":0}}"#;

/// No tile is there.
const NONE: &str = r#"{"tileAvailability":{"constant":0},
    "childSubtreeAvailability":{"constant":0}}"#;

/// Each tile is there and has three contents.
const THREE: &str = r#"{"buffers":[{"byteLength":8}],
    "bufferViews":[{"buffer":0,"byteOffset":0,"byteLength":1}],
    "tileAvailability":{"bitstream":0},
    "contentAvailability":[{"constant":1},{"constant":1},{"constant":1}],
    "childSubtreeAvailability":{"constant":0}}"#;

/// The root, and of its children those of the places 0, 0 and 0, 1.
const THREE_TILES: &[u8] = &[0x0b, 0, 0, 0, 0, 0, 0, 0];

/// The same tiles, of which the root and the last have a content.
const TWO_CONTENTS: &[u8] = &[0x0b, 0x09, 0, 0, 0, 0, 0, 0];

/// Of the child subtrees those of the places 0, 0 and 1, 1 and 3, 0 and 2, 2.
const FOUR_BELOW: &[u8] = &[0x29, 0x10, 0, 0, 0, 0, 0, 0];

/// An octree's.
const OCTREE: Kind = Kind::Subtree {
    octree: true,
    levels: 1,
    contents: 0,
};

fn check_row(rt: &impl Abort, alloc: Global, row: &Row) -> Result<(), Fail> {
    let (tile, further, subtrees, wanted) = row;
    let store = store_of_all(rt, alloc, tile, further, subtrees)?;
    assert_eq!(rt; tree_lines(alloc, &store)?.as_str(), *wanted, "of {tile}");
    Ok(())
}

static TREES: [Row; 8] = [
    // The root's subtree isn't loaded, is absent, is refused, and has no tile at its root.
    (
        "{%&}",
        &[],
        &[],
        "r 4000000 Replace waits http://tiles/s/0.0.0.subtree\n",
    ),
    ("{%&}", &[], &[(ROOT, BARE, None)], ""),
    ("{%&}", &[], &[(ROOT, BARE, Some(("{}", &[])))], ""),
    ("{%&}", &[], &[(ROOT, BARE, Some((NONE, &[])))], ""),
    // Names tell the level and the place, and each level halves the error.
    (
        r#"{%&,"refine":"ADD"}"#,
        &[],
        &[(ROOT, BARE, Some((TILES, THREE_TILES)))],
        "r 4000000 Add\nr!1.0.0 2000000 Add\nr!1.0.1 2000000 Add\n",
    ),
    (
        r#"{%&,"content":{"uri":"c/{level}/{x}_{y}.glb"}}"#,
        &[],
        &[(ROOT, ONE_EACH, Some((CONTENTS, TWO_CONTENTS)))],
        "r 4000000 Replace http://tiles/c/0/0_0.glb\n\
        r!1.0.0 2000000 Replace\n\
        r!1.0.1 2000000 Replace http://tiles/c/1/0_1.glb\n",
    ),
    // Of the four subtrees below, one is there, one has no tile at its root, one isn't loaded, and
    // one is absent. The last available level has no children.
    (
        "{%&}",
        &[],
        &[
            (ROOT, BARE, Some((BELOW, FOUR_BELOW))),
            ("http://tiles/s/2.0.0.subtree", BARE, Some((ALL, &[]))),
            ("http://tiles/s/2.1.1.subtree", BARE, Some((NONE, &[]))),
            ("http://tiles/s/2.2.2.subtree", BARE, None),
        ],
        "r 4000000 Replace\n\
        r!1.0.0 2000000 Replace\n\
        r!2.0.0 1000000 Replace\n\
        r!1.1.0 2000000 Replace\n\
        r!2.3.0 1000000 Replace waits http://tiles/s/2.3.0.subtree\n\
        r!1.0.1 2000000 Replace\n\
        r!1.1.1 2000000 Replace\n",
    ),
    // In an octree names have three numbers.
    (
        r#"{%,"implicitTiling":{"subdivisionScheme":"OCTREE","subtreeLevels":1,
            "availableLevels":2,"subtrees":{"uri":"s/{level}.{x}.{y}.{z}.subtree"}}}"#,
        &[],
        &[(
            "http://tiles/s/0.0.0.0.subtree",
            OCTREE,
            Some((BELOW, &[0x10, 0, 0, 0, 0, 0, 0, 0])),
        )],
        "r 4000000 Replace\n\
        r!1.0.0.1 2000000 Replace waits http://tiles/s/1.0.0.1.subtree\n",
    ),
];

#[test]
fn implicit_tiles(rt: HostRuntime) -> Result<(), Fail> {
    for row in TREES.iter() {
        check_row(&rt, rt.alloc(), row)?;
    }
    Ok(())
}

static AMONG_OTHERS: [Row; 4] = [
    // External tilesets stand behind the children, are numbered from 0, and have their tile's
    // error.
    (
        r#"{%&,"content":{"uri":"u{level}{x}{y}.json"}}"#,
        &[
            ("http://tiles/u100.json", None),
            ("http://tiles/u101.json", Some(r#"{$,"children":[{$}]}"#)),
        ],
        &[(
            ROOT,
            ONE_EACH,
            Some((CONTENTS, &[0x0b, 0x0b, 0, 0, 0, 0, 0, 0])),
        )],
        "r 4000000 Replace external\n\
        r!1.0.0 2000000 Replace external\n\
        r!1.0.1 2000000 Replace external\n\
        r!1.0.1/0 1000000 Replace\n\
        r!1.0.1/0/0 1000000 Replace\n\
        r/0 4000000 Replace nowhere waits http://tiles/u000.json\n",
    ),
    (
        r#"{%&,"contents":[{"uri":"a{x}.json"},{"uri":"b{x}.glb"},{"uri":"c{x}.json"}]}"#,
        &[],
        &[(
            ROOT,
            THREE_EACH,
            Some((THREE, &[0x01, 0, 0, 0, 0, 0, 0, 0])),
        )],
        "r 4000000 Replace external http://tiles/b0.glb\n\
        r/0 4000000 Replace nowhere waits http://tiles/a0.json\n\
        r/1 4000000 Replace nowhere waits http://tiles/c0.json\n",
    ),
    // A child that leaves no node keeps its number.
    (
        r#"{$,"children":[{%&},{$},{%&,"content":{"uri":"c/{level}/{x}_{y}.glb"}}]}"#,
        &[],
        &[
            (ROOT, BARE, None),
            (ROOT, ONE_EACH, Some((CONTENTS, TWO_CONTENTS))),
        ],
        "r 1000000 Replace\n\
        r/1 1000000 Replace\n\
        r/2 4000000 Replace http://tiles/c/0/0_0.glb\n\
        r/2!1.0.0 2000000 Replace\n\
        r/2!1.0.1 2000000 Replace http://tiles/c/1/0_1.glb\n",
    ),
    // An external tileset begins with an implicit root: its templates stand below its own address,
    // and the transform and the refinement are handed on.
    (
        r#"{$,"refine":"ADD","transform":[2,0,0,0,0,2,0,0,0,0,2,0,0,0,0,1],
            "content":{"uri":"v/w.json"}}"#,
        &[("http://tiles/v/w.json", Some("{%&}"))],
        &[(
            "http://tiles/v/s/0.0.0.subtree",
            BARE,
            Some((TILES, THREE_TILES)),
        )],
        "r 2000000 Add external\n\
        r/0 8000000 Add\n\
        r/0!1.0.0 4000000 Add\n\
        r/0!1.0.1 4000000 Add\n",
    ),
];

#[test]
fn implicit_tiles_among_others(rt: HostRuntime) -> Result<(), Fail> {
    for row in AMONG_OTHERS.iter() {
        check_row(&rt, rt.alloc(), row)?;
    }
    Ok(())
}

/// Each tile has a cell of the root's box, and the root alone a request volume.
static VOLUMES: [Row; 1] = [(
    r#"{%&,"viewerRequestVolume":{"sphere":[0,0,0,9]}}"#,
    &[],
    &[(ROOT, BARE, Some((TILES, &[0x11, 0, 0, 0, 0, 0, 0, 0])))],
    "0 0 0 axes 8000 0 0 0 8000 0 0 0 8000 within 0 0 0 radius 9000\n\
    4000 4000 0 axes 4000 0 0 0 4000 0 0 0 8000\n",
)];

#[test]
fn volumes_of_implicit_tiles(rt: HostRuntime) -> Result<(), Fail> {
    let alloc = rt.alloc();
    for (tile, further, subtrees, wanted) in VOLUMES.iter() {
        let store = store_of_all(&rt, alloc, tile, further, subtrees)?;
        assert_eq!(rt; tree_volumes(alloc, &store)?.as_str(), *wanted);
    }
    Ok(())
}

/// A root tile, its subtrees, and whether no node of the tree waits.
static WHOLE: [(&str, &[Subtree], bool); 3] = [
    ("{%&}", &[], false),
    ("{%&}", &[(ROOT, BARE, None)], true),
    ("{%&}", &[(ROOT, BARE, Some((TILES, THREE_TILES)))], true),
];

#[test]
fn whole_trees_of_implicit_tiles(rt: HostRuntime) -> Result<(), Fail> {
    let alloc = rt.alloc();
    for (tile, subtrees, whole) in WHOLE.iter() {
        let store = store_of_all(&rt, alloc, tile, &[], subtrees)?;
        assert_eq!(rt; PlainTree::build_whole(alloc, &store)?.is_whole(), *whole);
    }
    Ok(())
}

/// The subtree of ten or eleven levels, all of whose tiles are there.
const DEEP: &[Subtree] = &[(
    "http://tiles/s",
    Kind::Subtree {
        octree: false,
        levels: 11,
        contents: 0,
    },
    Some((ALL, &[])),
)];

/// A root tile, and how many nodes the tree has, or why there is none: (4^10 - 1) / 3, and
/// (4^11 - 1) / 3 are too many.
static LARGE: [(&str, Result<usize, PlainError>); 2] = [
    (
        r#"{%,"implicitTiling":{"subdivisionScheme":"QUADTREE","subtreeLevels":11,
            "availableLevels":10,"subtrees":{"uri":"s"}}}"#,
        Ok(349_525),
    ),
    (
        r#"{%,"implicitTiling":{"subdivisionScheme":"QUADTREE","subtreeLevels":11,
            "availableLevels":11,"subtrees":{"uri":"s"}}}"#,
        Err(PlainError::TooLarge),
    ),
];

#[test]
fn large_trees_of_implicit_tiles(rt: HostRuntime) -> Result<(), Fail> {
    let alloc = rt.alloc();
    for (tile, wanted) in LARGE.iter() {
        let store = store_of_all(&rt, alloc, tile, &[], DEEP)?;
        assert_eq!(rt; size(alloc, &store), *wanted);
    }
    Ok(())
}
