//! Where the tiles of a nest of three documents stand.

ghost use Rattle.std.specs.Prelude.{All, IsTrue};
ghost use Rattle.plain_tree.specs.Standing.{standing_of};

use super::lines::{Row, check_lines};
use super::{Further, store_with};
use crate::PlainTree;
use doc_store::DocStore;
use expanded_tree::{Node, NodeFacts, TileTree};
use fixed_geometry::Point;
use std::alloc::{AllocError, Global};
use std::test::Fail;
use volumes::Volume;

/// The root tiles of three documents, each an external tileset of the one before it. The first
/// stretches by 2 and moves by 10 metres along x, the second moves by 3 metres along y, which are 6
/// metres there.
const ROOT: &str = r#"{"boundingVolume":{"sphere":[0,0,0,50]},"geometricError":8,"refine":"ADD",
    "transform":[2,0,0,0,0,2,0,0,0,0,2,0,10,0,0,1],"content":{"uri":"a/u.json"},
    "children":[{"boundingVolume":{"sphere":[1,2,3,4]},"geometricError":4,
    "content":{"uri":"t.glb"}}]}"#;

/// The two documents below it.
const BELOW: [Further; 2] = [
    (
        "http://tiles/a/u.json",
        Some(
            r#"{"boundingVolume":{"sphere":[0,0,0,5]},"geometricError":2,
                "transform":[1,0,0,0,0,1,0,0,0,0,1,0,0,3,0,1],
                "contents":[{"uri":"b/v.json"},{"uri":"u.glb"}]}"#,
        ),
    ),
    (
        "http://tiles/a/b/v.json",
        Some(
            r#"{"boundingVolume":{"sphere":[0,0,1,1]},"geometricError":0,"refine":"REPLACE",
                "viewerRequestVolume":{"sphere":[0,0,0,20]},"content":{"uri":"../v.glb"},
                "children":[{"boundingVolume":{"box":[0,0,0,1,0,0,0,2,0,0,0,3]},
                "geometricError":0}]}"#,
        ),
    ),
];

/// The lines of their tree.
static NEST: [Row; 1] = [(
    ROOT,
    &BELOW,
    "r 16000000 Add external\n\
    r/0 8000000 Add http://tiles/t.glb\n\
    r/1 4000000 Add external http://tiles/a/u.glb\n\
    r/1/0 0 Replace http://tiles/a/v.glb\n\
    r/1/0/0 0 Replace\n",
)];

/// The lines of the volumes of its nodes: the centre of a sphere and its radius, or the centre of a
/// box and its axes, in millimetres; behind it the request volume where there is one.
const NEST_VOLUMES: &str = "10000 0 0 radius 100000\n\
    12000 4000 6000 radius 8000\n\
    10000 6000 0 radius 10000\n\
    10000 6000 2000 radius 2000 within 10000 6000 0 radius 40000\n\
    10000 6000 0 axes 2000 0 0 0 4000 0 0 0 6000\n";

/// Three numbers.
fn write_point(alloc: Global, point: Point, text: &mut String) -> Result<(), AllocError> {
    let numbers = format!(in alloc; "{} {} {}", point.x, point.y, point.z)?;
    text.push_str(numbers.as_str())
}

fn write_volume(alloc: Global, volume: &Volume, text: &mut String) -> Result<(), AllocError> {
    match volume {
        Volume::Ball { centre, radius } => {
            write_point(alloc, *centre, text)?;
            let end = format!(in alloc; " radius {}", *radius)?;
            text.push_str(end.as_str())
        }
        Volume::Oriented { centre, axes } => {
            write_point(alloc, *centre, text)?;
            text.push_str(" axes")?;
            for axis in axes {
                text.push(' ')?;
                write_point(alloc, *axis, text)?;
            }
            Ok(())
        }
    }
}

/// The volumes of a node, and the end of the line.
fn write_volumes(alloc: Global, facts: &NodeFacts, text: &mut String) -> Result<(), AllocError> {
    if let Some(volume) = &facts.volume {
        write_volume(alloc, volume, text)?;
    }
    if let Some(volume) = &facts.request {
        text.push_str(" within ")?;
        write_volume(alloc, volume, text)?;
    }
    text.push('\n')
}

/// The lines of the volumes of these nodes.
fn volume_lines(alloc: Global, tree: &PlainTree<'_>, nodes: &[Node]) -> Result<String, AllocError>
    requires { All (λ n. IsTrue ((standing_of tree.now).is_valid n)) nodes.now }
{
    let mut text = String::new(alloc);
    for node in nodes {
        write_volumes(alloc, &tree.facts(*node), &mut text)?;
    }
    Ok(text)
}

/// The lines of the volumes of the tree of a store in preorder.
pub(super) fn tree_volumes(alloc: Global, store: &DocStore) -> Result<String, AllocError> {
    let tree = PlainTree::build_whole(alloc, store)?;
    let nodes = tree.preorder(alloc)?;
    volume_lines(alloc, &tree, nodes.as_slice())
}

#[test]
fn a_nest_of_documents(rt: HostRuntime) -> Result<(), Fail> {
    check_lines(&rt, rt.alloc(), &NEST)
}

#[test]
fn volumes_of_a_nest(rt: HostRuntime) -> Result<(), Fail> {
    let alloc = rt.alloc();
    let store = store_with(&rt, alloc, ROOT, &BELOW)?;
    assert_eq!(rt; tree_volumes(alloc, &store)?.as_str(), NEST_VOLUMES);
    Ok(())
}
