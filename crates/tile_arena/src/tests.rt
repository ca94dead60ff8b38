//! Walks over arenas. Expected values are worked out by hand from the definitions.

ghost use Rattle.std.specs.Prelude.{IsTrue};
ghost use Rattle.tile_arena.specs.Standing.{standing_of};

use crate::Arena;
use bytes::Bytes;
use cut_core::visited;
use doc_store::{Added, DOCUMENT_LIMIT, DocState, DocStore, is_document_kind};
use error_test::View;
use expanded_tree::{Node, TileTree};
use fixed_geometry::Point;
use std::alloc::Global;
use std::process::Abort;
use std::test::Fail;
use tile_types::{Key, Kind, Text};
use tile_uri::Base;

/// A tile whose external tileset is `u.json`.
const HOLDER: &str = r#"{"asset":{"version":"1.1"},"geometricError":9,"root":
    {"boundingVolume":{"sphere":[0,0,0,5]},"geometricError":1,"content":{"uri":"u.json"}}}"#;

/// A tile with two children.
const PARENT: &str = r#"{"asset":{"version":"1.1"},"geometricError":9,"root":
    {"boundingVolume":{"sphere":[0,0,0,5]},"geometricError":1,"children":[
    {"boundingVolume":{"sphere":[0,0,0,5]},"geometricError":0},
    {"boundingVolume":{"sphere":[0,0,0,5]},"geometricError":0}]}}"#;

/// A quadtree of 30 levels, all of whose subtrees have one address.
const DEEP: &str = r#"{"asset":{"version":"1.1"},"geometricError":1,"root":
    {"boundingVolume":{"box":[0,0,0,8,0,0,0,8,0,0,0,8]},"geometricError":0.04,
    "content":{"uri":"a.glb"},"implicitTiling":{"subdivisionScheme":"QUADTREE",
    "subtreeLevels":12,"availableLevels":30,"subtrees":{"uri":"s.subtree"}}}}"#;

/// A subtree with everything.
const ALL: &str = "subt\x01\0\0\0\x78\0\0\0\0\0\0\0\0\0\0\0\0\0\0\0\
    {\"tileAvailability\":{\"constant\":1},\"contentAvailability\":[{\"constant\":1}],\
    \"childSubtreeAvailability\":{\"constant\":1}}    ";

/// The kind of the subtrees of the quadtree.
const SUBTREE: Kind = Kind::Subtree {
    octree: false,
    levels: 12,
    contents: 1,
};

/// The arena of a root document.
fn arena_of(rt: &impl Abort, alloc: Global, root: &str) -> Result<Arena, Fail> {
    let base = Base::new(alloc, "http://tiles/")?;
    let address = base.resolve(alloc, "t.json")?;
    let bytes = Bytes::copy_from_slice(alloc, root.as_bytes())?;
    assert!(rt; bytes.len() <= DOCUMENT_LIMIT as usize);
    Ok(Arena::new(alloc, DocStore::open(alloc, &address, bytes)?)?)
}

/// Adds a document, or marks it as absent, which lets all nodes go.
fn put(
    rt: &impl Abort,
    alloc: Global,
    arena: &mut Arena,
    address: &str,
    kind: Kind,
    text: Option<&str>,
) -> Result<(), Fail> {
    let key = Key {
        kind,
        address: Text::new(alloc, address)?,
    };
    assert!(rt; is_document_kind(key.kind));
    arena.reserve(1)?;
    assert!(rt; arena.store().state_of(&key) == DocState::NotLoaded);
    match text {
        None => arena.mark_absent(key),
        Some(text) => {
            let bytes = Bytes::copy_from_slice(alloc, text.as_bytes())?;
            assert!(rt; bytes.len() <= DOCUMENT_LIMIT as usize);
            assert!(rt; arena.add(alloc, key, bytes)? == Added::Kept);
        }
    }
    assert_eq!(rt; arena.kept(), 0);
    Ok(())
}

/// How many nodes a view from 10 metres above visits.
fn visits(alloc: Global, arena: &mut Arena) -> Result<Option<u32>, Fail> {
    let eye = Point {
        x: 0,
        y: 0,
        z: 10_000,
    };
    let view = View::new(eye, 1000, 1, 2, 256, &[])?;
    Ok(visited(alloc, arena, &view).ok())
}

/// A root document, a further document, unless it is absent, how many nodes the view visits before
/// it came and behind it, and how many are then held at most.
type Row = (
    &'static str,
    &'static str,
    Kind,
    Option<&'static str>,
    u32,
    u32,
    u64,
);

static WALKS: [Row; 3] = [
    // The node of the external tileset waits. Then it is a tile with two children, or there is none.
    (
        HOLDER,
        "http://tiles/u.json",
        Kind::Tileset,
        Some(PARENT),
        2,
        4,
        4,
    ),
    (HOLDER, "http://tiles/u.json", Kind::Tileset, None, 2, 1, 1),
    // Five nodes are visited, and each has four children.
    (DEEP, "http://tiles/s.subtree", SUBTREE, Some(ALL), 1, 5, 21),
];

#[test]
fn walks(rt: HostRuntime) -> Result<(), Fail> {
    let alloc = rt.alloc();
    for (root, address, kind, text, before, behind, most) in WALKS.iter() {
        let mut arena = arena_of(&rt, alloc, root)?;
        assert_eq!(rt; visits(alloc, &mut arena)?, Some(*before));
        put(&rt, alloc, &mut arena, address, *kind, *text)?;
        assert_eq!(rt; visits(alloc, &mut arena)?, Some(*behind));
        assert!(rt; arena.kept() <= *most);
    }
    Ok(())
}

/// Opens a node with two children twice: it has them once.
fn open_twice(rt: &impl Abort, alloc: Global, arena: &mut Arena, node: Node) -> Result<(), Fail>
    requires { IsTrue ((standing_of arena.old).is_valid node) }
{
    assert_eq!(rt; arena.open_children(alloc, node)?, 2);
    assert_eq!(rt; arena.kept(), 3);
    assert_eq!(rt; arena.open_children(alloc, node)?, 2);
    assert_eq!(rt; arena.kept(), 3);
    let last = arena.child(node, 1);
    assert_eq!(rt; arena.name(alloc, last)?.as_str(), "r/1");
    Ok(())
}

#[test]
fn a_node_opened_twice(rt: HostRuntime) -> Result<(), Fail> {
    let alloc = rt.alloc();
    let mut arena = arena_of(&rt, alloc, PARENT)?;
    let root = arena.top(alloc)?.ok_or("no root")?;
    assert_eq!(rt; arena.kept(), 1);
    open_twice(&rt, alloc, &mut arena, root)
}
