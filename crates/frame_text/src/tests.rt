//! Frames and refusals with their texts, whose digests are those of another program.

use crate::{frame_text, push_show_line, refused_text, shown_text};
use bytes::Bytes;
use content_digest::Content;
use error_test::View;
use fixed_geometry::Point;
use frame_pins::{Frame, Shown, ShownList, Why};
use std::alloc::{AllocError, Global};
use std::test::Fail;
use tile_types::Text;

/// What a frame shows: the names of tiles, with the address and the bytes of a content.
type Contents = &'static [(&'static str, &'static str, &'static str)];

/// A frame's number, its viewer's, what it shows, and its lines.
struct Case {
    id: u64,
    viewer: u8,
    shown: Contents,
    lines: &'static [&'static str],
}

static CASES: [Case; 6] = [
    Case {
        id: 1,
        viewer: 0,
        shown: &[],
        lines: &["frame 1 0 0\n"],
    },
    Case {
        id: u64::MAX,
        viewer: 255,
        shown: &[],
        lines: &["frame 18446744073709551615 255 0\n"],
    },
    Case {
        id: 2,
        viewer: 0,
        shown: &[("r/1", "http://tiles/c.glb", "a")],
        lines: &[
            "frame 2 0 1\n",
            "show r/1 http://tiles/c.glb 1 \
            ca978112ca1bbdcafac231b39a23dc4da786eff8147c4e72b9807785afee48bb\n",
        ],
    },
    Case {
        id: 10,
        viewer: 7,
        shown: &[("r/0", "http://tiles/b.glb", "")],
        lines: &[
            "frame 10 7 1\n",
            "show r/0 http://tiles/b.glb 0 \
            e3b0c44298fc1c149afbf4c8996fb92427ae41e4649b934ca495991b7852b855\n",
        ],
    },
    // The order is that of the frame, not that of the names.
    Case {
        id: 3,
        viewer: 0,
        shown: &[
            ("r/1", "http://tiles/c.glb", "a"),
            ("r/0", "http://tiles/b.glb", "hello"),
            ("r/1", "http://tiles/c.glb", "a"),
        ],
        lines: &[
            "frame 3 0 3\n",
            "show r/1 http://tiles/c.glb 1 \
            ca978112ca1bbdcafac231b39a23dc4da786eff8147c4e72b9807785afee48bb\n",
            "show r/0 http://tiles/b.glb 5 \
            2cf24dba5fb0a30e26e83b2ac5b9e29e1b161e5c1fa7425e73043362938b9824\n",
            "show r/1 http://tiles/c.glb 1 \
            ca978112ca1bbdcafac231b39a23dc4da786eff8147c4e72b9807785afee48bb\n",
        ],
    },
    Case {
        id: 2,
        viewer: 0,
        shown: &[(
            "r/0!1.1.0.0",
            "http://tiles/city/c/1/1/0/0.glb",
            "The quick brown fox jumps over the lazy dog",
        )],
        lines: &[
            "frame 2 0 1\n",
            "show r/0!1.1.0.0 http://tiles/city/c/1/1/0/0.glb 43 \
            d7a8fbb307d7809469ca9abcb0082e4f8d5651e46d3cdb762d02d0bf37c9e592\n",
        ],
    },
];

fn shown_list(alloc: Global, contents: Contents) -> Result<ShownList, AllocError> {
    let mut shown = ShownList::new(alloc);
    for (tile, address, bytes) in contents {
        shown.push(Shown {
            tile: Text::new(alloc, tile)?,
            address: Text::new(alloc, address)?,
            content: Content::new(Bytes::copy_from_slice(alloc, bytes.as_bytes())?),
        })?;
    }
    Ok(shown)
}

#[test]
fn frames_have_their_lines(rt: HostRuntime) -> Result<(), Fail> {
    let alloc = rt.alloc();
    let eye = Point { x: 0, y: 0, z: 0 };
    let view = View::new(eye, 1, 1, 1, 1, &[])?;
    for case in &CASES {
        let shown = shown_list(alloc, case.shown)?;
        let frame = Frame::make(case.id, case.viewer, view, shown);
        let written = frame_text(alloc, &frame);
        frame.spend();
        let lines = written?;
        assert_eq!(rt; lines.len(), case.lines.len());
        for i in 0..lines.len() {
            assert_eq!(rt; lines[i].as_str(), case.lines[i]);
        }
    }
    Ok(())
}

/// Of `abc`.
static ABC: [u8; 32] = [
    0xba, 0x78, 0x16, 0xbf, 0x8f, 0x01, 0xcf, 0xea, 0x41, 0x41, 0x40, 0xde, 0x5d, 0xae, 0x22, 0x23,
    0xb0, 0x03, 0x61, 0xa3, 0x96, 0x17, 0x7a, 0x9c, 0xb4, 0x10, 0xff, 0x61, 0xf2, 0x00, 0x15, 0xad,
];

static ABC_LINE: &str = "show r http://tiles/a.glb 3 \
    ba7816bf8f01cfea414140de5dae2223b00361a396177a9cb410ff61f20015ad\n";

#[test]
fn a_line_is_appended(rt: HostRuntime) -> Result<(), Fail> {
    let alloc = rt.alloc();
    let (tile, address) = ("r", "http://tiles/a.glb");
    let line = shown_text(
        alloc,
        &Text::new(alloc, tile)?,
        &Text::new(alloc, address)?,
        3,
        &ABC,
    )?;
    assert_eq!(rt; line.as_str(), ABC_LINE);
    let mut text = String::from_str(alloc, "cut 1\n")?;
    push_show_line(&mut text, tile, address, 3, &ABC)?;
    assert_eq!(rt; text.as_str().strip_prefix("cut 1\n"), Some(ABC_LINE));
    Ok(())
}

#[test]
fn refusals_have_their_lines(rt: HostRuntime) -> Result<(), Fail> {
    let alloc = rt.alloc();
    assert_eq!(rt;
        refused_text(alloc, 0, Why::FramesFull)?.as_str(),
        "refused 0 FramesFull\n"
    );
    assert_eq!(rt;
        refused_text(alloc, 255, Why::TooLarge)?.as_str(),
        "refused 255 TooLarge\n"
    );
    Ok(())
}
