//! What a document says of its tiles.

use super::{TILE, TOP, joined, outcome};
use crate::{Document, Written, list_gives_tree};
use fixed_geometry::Point;
use json_decimal::Json;
use std::alloc::Global;
use std::process::Abort;
use std::test::Fail;
use tile_types::Refine;
use volumes::Volume;

/// A root with two children, the first of which has one: names that come twice, escapes, a member
/// of another name, and `children` before the rest.
const TREE: [&str; 12] = [
    TOP,
    r#"{"children":5,"extras":{"children":1},"children":["#,
    TILE,
    r#","children":["#,
    TILE,
    r#","contents":[{"uri":"a.glb"},{"uri":"b.JSON"},{"uri":"c.glb"}]}]},"#,
    TILE,
    r#","children":[]}],"refine":"add","boundingVolume":{"box":[1,2,3.0005,1,0,0,0,1,0,0,0,1]},"#,
    r#""geometricError":2e99,"content":{"uri":5,"\u0075ri":"\u0061 b.json"},"#,
    r#""viewerRequestVolume":{"sphere":[0,0,-1,0.5]},"#,
    r#""transform":[2,0,0,0,0,1,0,0,0,0,1,0,7,0,0,1]},"#,
    r#""schema":{"id":"first"},"schema":{"id":"last"}}"#,
];

/// The address of a content, and whether it is an external tileset.
fn content(tile: &Written, i: usize) -> Option<(&str, bool)> {
    if i < tile.content_count() {
        return Some((tile.content(i).as_str(), tile.is_external(i)));
    }
    None
}

fn tree(alloc: Global) -> Result<Document, Fail> {
    let bytes = joined(alloc, &TREE)?;
    Ok(outcome(alloc, &bytes)?)
}

#[test]
fn sizes_in_preorder(rt: HostRuntime) -> Result<(), Fail> {
    let document = tree(rt.alloc())?;
    let [root, first, below, second] = document.tiles() else {
        return Err("not four tiles".into());
    };
    assert_eq!(rt; (root.size(), first.size()), (4, 2));
    assert_eq!(rt; (below.size(), second.size()), (1, 1));
    Ok(())
}

#[test]
fn what_the_root_says(rt: HostRuntime) -> Result<(), Fail> {
    let document = tree(rt.alloc())?;
    let root = document.tiles().first().ok_or("no root")?;
    let centre = Point {
        x: 1_000,
        y: 2_000,
        z: 3_001,
    };
    assert!(rt; matches!(root.volume(), Volume::Oriented { centre: c, .. } if c == centre));
    let centre = Point {
        x: 0,
        y: 0,
        z: -1_000,
    };
    let request = Volume::Ball {
        centre,
        radius: 500,
    };
    assert_eq!(rt; root.request(), Some(&request));
    assert_eq!(rt; root.error(), 1 << 50);
    assert_eq!(rt; root.refine(), Some(Refine::Add));
    let map = root.transform().ok_or("no transform")?;
    let moved = Point {
        x: 2_007_000,
        y: 2_000,
        z: 3_000,
    };
    let point = Point {
        x: 1_000_000,
        y: 2_000,
        z: 3_000,
    };
    assert_eq!(rt; map.apply(point), moved);
    Ok(())
}

#[test]
fn what_others_say(rt: HostRuntime) -> Result<(), Fail> {
    let document = tree(rt.alloc())?;
    let other = document.tiles().last().ok_or("no tile")?;
    assert!(rt; matches!(other.volume(), Volume::Ball { radius: 1_000, .. }));
    assert_eq!(rt; other.error(), 1_000_000);
    assert_eq!(rt; other.refine(), None);
    assert!(rt; other.request().is_none() && other.transform().is_none());
    Ok(())
}

#[test]
fn contents_of_tiles(rt: HostRuntime) -> Result<(), Fail> {
    let document = tree(rt.alloc())?;
    let [root, first, below, _] = document.tiles() else {
        return Err("not four tiles".into());
    };
    assert_eq!(rt; content(root, 0), Some(("http://tiles/x/a%20b.json", true)));
    assert_eq!(rt; content(root, 1), None);
    assert_eq!(rt; content(first, 0), None);
    assert_eq!(rt; content(below, 0), Some(("http://tiles/x/a.glb", false)));
    assert_eq!(rt; content(below, 1), Some(("http://tiles/x/b.JSON", true)));
    assert_eq!(rt; content(below, 2), Some(("http://tiles/x/c.glb", false)));
    assert_eq!(rt; content(below, 3), None);
    Ok(())
}

#[test]
fn the_schema(rt: HostRuntime) -> Result<(), Fail> {
    let document = tree(rt.alloc())?;
    let Some(Json::Object(schema)) = document.schema() else {
        return Err("no schema".into());
    };
    assert!(rt; matches!(schema.last("id"), Some(Json::Words(id)) if id.as_str() == "last"));
    let bytes = joined(rt.alloc(), &[TOP, TILE, "}}"])?;
    assert!(rt; outcome(rt.alloc(), &bytes)?.schema().is_none());
    Ok(())
}

/// Errors as they are spelled, and in micrometres.
static ERRORS: [(&str, u64); 8] = [
    ("1e400", 1_125_899_906_842_624),
    ("1125899906.842624", 1_125_899_906_842_624),
    ("1125899906.842623", 1_125_899_906_842_623),
    ("0.0000005", 1),
    ("0.00000049", 0),
    ("-0.00000049", 0),
    ("12e-1", 1_200_000),
    ("5,\"geometricError\":6", 6_000_000),
];

#[test]
fn errors_of_roots(rt: HostRuntime) -> Result<(), Fail> {
    let front = r#"{"boundingVolume":{"sphere":[0,0,0,1]},"geometricError":"#;
    for (spelling, error) in &ERRORS {
        let bytes = joined(rt.alloc(), &[TOP, front, spelling, "}}"])?;
        let document = outcome(rt.alloc(), &bytes)?;
        let root = document.tiles().first().ok_or("no root")?;
        assert_eq!(rt; root.error(), *error, "of {spelling}");
    }
    Ok(())
}

static REFINEMENTS: [(&str, Refine); 6] = [
    (r#""add""#, Refine::Add),
    (r#""ADD""#, Refine::Add),
    (r#""\u0061Dd""#, Refine::Add),
    (r#""Replace""#, Refine::Replace),
    (r#""REPLACE""#, Refine::Replace),
    (r#""ADD","refine":"REPLACE""#, Refine::Replace),
];

#[test]
fn refinements_of_roots(rt: HostRuntime) -> Result<(), Fail> {
    for (spelling, refine) in &REFINEMENTS {
        let bytes = joined(rt.alloc(), &[TOP, TILE, r#","refine":"#, spelling, "}}"])?;
        let document = outcome(rt.alloc(), &bytes)?;
        let root = document.tiles().first().ok_or("no root")?;
        assert_eq!(rt; root.refine(), Some(*refine), "of {spelling}");
    }
    Ok(())
}

const BOX: Volume = Volume::Oriented {
    centre: Point {
        x: 1_000,
        y: 2_000,
        z: 3_000,
    },
    axes: [
        Point {
            x: 4_000,
            y: 5_000,
            z: 6_000,
        },
        Point {
            x: 7_000,
            y: 8_000,
            z: 9_000,
        },
        Point {
            x: -10_000,
            y: -1,
            z: 12,
        },
    ],
};

const BALL: Volume = Volume::Ball {
    centre: Point {
        x: 1,
        y: -2_000,
        z: 68_719_476_736,
    },
    radius: 0,
};

/// The box, as it is written.
static BOXES: [&str; 3] = [
    r#"{"box":[1,2,3,4,5,6,7,8,9,-10,-0.0005,12e-3],"region":[0,0,0,0,0,0]}"#,
    r#"{"sphere":5,"box":[1,2,3,4,5,6,7,8,9,-10,-0.0005,12e-3]}"#,
    r#"{"box":null,"box":[1,2,3,4,5,6,7,8,9,-10,-0.0005,12e-3]}"#,
];

/// The sphere, as it is written.
static BALLS: [&str; 2] = [
    r#"{"region":null,"sphere":[0.0005,-2,68719476.736,-0.0004]}"#,
    r#"{"cylinder":[1],"sphere":[0.001,-2,68719476.7364,0]}"#,
];

const ALIGNED: Volume = Volume::Oriented {
    centre: Point { x: 0, y: 0, z: 1 },
    axes: [
        Point { x: 1, y: 0, z: 0 },
        Point {
            x: 0,
            y: -2_000,
            z: 0,
        },
        Point { x: 0, y: 0, z: 3 },
    ],
};

const LEANING: Volume = Volume::Oriented {
    centre: Point { x: 0, y: 0, z: 1 },
    axes: [
        Point { x: 1, y: 0, z: 0 },
        Point {
            x: 0,
            y: -2_000,
            z: 0,
        },
        Point { x: 0, y: 4, z: 3 },
    ],
};

/// Two boxes of which one is along the axes of the coordinates, as they are written.
static ALONG: [&str; 1] = [r#"{"box":[0,0,0.001,0.001,0,0,0,-2,0,0,0,0.003]}"#];

static NEARLY_ALONG: [&str; 1] = [r#"{"box":[0,0,0.001,0.001,0,0,0,-2,0,0,0.004,0.003]}"#];

/// Reads a root of this bounding volume with further members, and compares its volumes.
fn check_volume<R: AllocGlobal + Abort>(
    rt: &R,
    written: &str,
    further: &[&str; 2],
    volume: &Volume,
    request: Option<&Volume>,
) -> Result<(), Fail> {
    let [front, back] = *further;
    let pieces = [
        TOP,
        r#"{"boundingVolume":"#,
        written,
        r#","geometricError":0"#,
        front,
        back,
        "}}",
    ];
    let bytes = joined(rt.alloc(), &pieces)?;
    let document = outcome(rt.alloc(), &bytes)?;
    let root = document.tiles().first().ok_or("no root")?;
    assert_eq!(rt; root.volume(), *volume, "of {written}");
    assert_eq!(rt; root.request(), request, "of {written}");
    Ok(())
}

/// Reads each as a root's only volume, and as both of its volumes, and compares them.
fn check_volumes<R: AllocGlobal + Abort>(
    rt: &R,
    rows: &[&str],
    volume: &Volume,
) -> Result<(), Fail> {
    for written in rows {
        check_volume(rt, written, &["", ""], volume, None)?;
        let both = [r#","viewerRequestVolume":"#, *written];
        check_volume(rt, written, &both, volume, Some(volume))?;
    }
    Ok(())
}

#[test]
fn boxes_of_roots(rt: HostRuntime) -> Result<(), Fail> {
    check_volumes(&rt, &BOXES, &BOX)
}

#[test]
fn boxes_along_the_axes(rt: HostRuntime) -> Result<(), Fail> {
    check_volumes(&rt, &ALONG, &ALIGNED)?;
    check_volumes(&rt, &NEARLY_ALONG, &LEANING)
}

#[test]
fn spheres_of_roots(rt: HostRuntime) -> Result<(), Fail> {
    check_volumes(&rt, &BALLS, &BALL)
}

/// Documents that are read, and how many contents their roots have.
static READ: [(&[&str], usize); 7] = [
    (&[TOP, TILE, r#","contents":[],"children":[]}}"#], 0),
    (
        &[TOP, TILE, r#","contents":5,"contents":[{"uri":"a"}]}}"#],
        1,
    ),
    (
        &[TOP, TILE, r#","contents":[{"uri":"a"},{"uri":"a"}]}}"#],
        2,
    ),
    (
        &[
            r#"{"asset":{"version":"1.0"},"geometricError":0,"root":"#,
            TILE,
            "}}",
        ],
        0,
    ),
    (
        &[
            TOP,
            TILE,
            r#"},"extensionsRequired":["3DTILES_content_gltf"],"extensionsUsed":5}"#,
        ],
        0,
    ),
    (
        &[
            TOP,
            TILE,
            r#","extras":{"content":[{"children":[[[5]]]}]},"metadata":null}}"#,
        ],
        0,
    ),
    (
        &[
            TOP,
            TILE,
            r#","content":{"uri":"a","group":{"uri":[[[5]]]},"boundingVolume":5}}}"#,
        ],
        1,
    ),
];

#[test]
fn contents_of_roots(rt: HostRuntime) -> Result<(), Fail> {
    for (pieces, count) in &READ {
        let bytes = joined(rt.alloc(), pieces)?;
        let document = outcome(rt.alloc(), &bytes)?;
        assert_eq!(rt; document.tiles().len(), 1);
        let root = document.tiles().first().ok_or("no root")?;
        assert_eq!(rt; root.content_count(), *count);
    }
    Ok(())
}

#[test]
fn the_law(_rt: HostRuntime) {
    list_gives_tree();
}
