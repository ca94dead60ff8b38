//! What implicit roots say of the tiles below them.

use super::{BOXED, TILE, TOP, joined, outcome};
use crate::{AVAILABLE_LEVELS, Document, ImplicitPart};
use std::alloc::Global;
use std::process::Abort;
use std::test::Fail;
use tile_types::Refine;
use tile_uri::Template;

/// A root with two children, implicit roots both: of a quadtree, and of an octree with no content.
const FOREST: [&str; 10] = [
    TOP,
    TILE,
    r#","children":["#,
    BOXED,
    r#","children":[],"refine":"ADD","contents":[{"uri":"{x}-{y}.glb"},{"uri":"\u007blevel}"}],"#,
    r#""implicitTiling":{"subdivisionScheme":"QUADTREE","subtreeLevels":0.3e1,"#,
    r#""availableLevels":30,"subtrees":{"uri":"s\/{level}.{x}.{y}"}}},"#,
    BOXED,
    r#","implicitTiling":{"subdivisionScheme":"OCTREE","subtreeLevels":8,"availableLevels":1,"#,
    r#""subtrees":{"uri":"http://[{z}"}}}]}}"#,
];

fn forest(alloc: Global) -> Result<Document, Fail> {
    let bytes = joined(alloc, &FOREST)?;
    Ok(outcome(alloc, &bytes)?)
}

/// Compares the text of a template at level 2, 3, 4 and 5.
fn check_template<R: AllocGlobal + Abort>(
    rt: &R,
    template: &Template,
    expected: &str,
) -> Result<(), Fail> {
    let text = template.fill(rt.alloc(), 2, 3, 4, 5)?;
    assert_eq!(rt; text.as_str(), expected);
    Ok(())
}

/// Compares whether the tiles are those of an octree, and the levels.
fn check_levels<R: AllocGlobal + Abort>(
    rt: &R,
    part: &ImplicitPart,
    octree: bool,
    subtree: u8,
    available: u8,
) {
    assert_eq!(rt; part.octree(), octree);
    assert_eq!(rt; part.subtree_levels(), subtree);
    assert_eq!(rt; part.available_levels(), available);
}

#[test]
fn tiles_of_the_document(rt: HostRuntime) -> Result<(), Fail> {
    let document = forest(rt.alloc())?;
    let [root, first, second] = document.tiles() else {
        return Err("not three tiles".into());
    };
    assert!(rt; root.implicit().is_none());
    assert_eq!(rt; (root.size(), first.size(), second.size()), (3, 1, 1));
    assert_eq!(rt; (first.content_count(), second.content_count()), (0, 0));
    assert_eq!(rt;
        (first.refine(), second.refine()),
        (Some(Refine::Add), None)
    );
    Ok(())
}

#[test]
fn part_of_a_quadtree(rt: HostRuntime) -> Result<(), Fail> {
    let document = forest(rt.alloc())?;
    let tile = document.tiles().get(1).ok_or("no tile")?;
    let part = tile.implicit().ok_or("no implicit part")?;
    check_levels(&rt, part, false, 3, AVAILABLE_LEVELS);
    check_template(&rt, part.subtrees(), "s/2.3.4")?;
    let [first, second] = part.contents() else {
        return Err("not two contents".into());
    };
    check_template(&rt, first, "3-4.glb")?;
    check_template(&rt, second, "2")
}

#[test]
fn part_of_an_octree(rt: HostRuntime) -> Result<(), Fail> {
    let document = forest(rt.alloc())?;
    let tile = document.tiles().get(2).ok_or("no tile")?;
    let part = tile.implicit().ok_or("no implicit part")?;
    check_levels(&rt, part, true, 8, 1);
    check_template(&rt, part.subtrees(), "http://[5")?;
    assert!(rt; part.contents().is_empty());
    Ok(())
}

/// Roots of one content, or none, and how many contents their tiles have.
static CONTENTS: [(&str, usize); 4] = [
    ("", 0),
    (r#","contents":[]"#, 0),
    (r#","content":{"uri":"{level}"}"#, 1),
    (r#","contents":[{"uri":""}]"#, 1),
];

#[test]
fn contents_of_tilings(rt: HostRuntime) -> Result<(), Fail> {
    let tiling = r#","implicitTiling":{"subdivisionScheme":"QUADTREE","subtreeLevels":1,"#;
    let behind = r#""availableLevels":1,"subtrees":{"uri":""}}}}"#;
    for (contents, count) in &CONTENTS {
        let bytes = joined(rt.alloc(), &[TOP, BOXED, contents, tiling, behind])?;
        let document = outcome(rt.alloc(), &bytes)?;
        let root = document.tiles().first().ok_or("no root")?;
        let part = root.implicit().ok_or("no implicit part")?;
        assert_eq!(rt; part.contents().len(), *count);
    }
    Ok(())
}
