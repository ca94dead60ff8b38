//! What no clause says: that a frame's parts can be printed, and each call once.

use crate::{Frame, Shown, ShownList, Why};
use bytes::Bytes;
use content_digest::Content;
use error_test::View;
use fixed_geometry::Point;
use std::alloc::{AllocError, Global};
use std::test::Fail;
use tile_types::Text;

/// One content of three bytes, of the root tile.
fn one_shown(alloc: Global) -> Result<ShownList, AllocError> {
    let mut shown = ShownList::new(alloc);
    shown.push(Shown {
        tile: Text::new(alloc, "r")?,
        address: Text::new(alloc, "http://tiles/a.glb")?,
        content: Content::new(Bytes::copy_from_slice(alloc, b"abc")?),
    })?;
    Ok(shown)
}

#[test]
fn a_frame_is_spent(rt: HostRuntime) -> Result<(), Fail> {
    let alloc = rt.alloc();
    let eye = Point {
        x: 0,
        y: 0,
        z: 10_000,
    };
    let view = View::new(eye, 1080, 1, 2, 256, &[])?;
    let frame = Frame::make(7, 3, view, one_shown(alloc)?);
    assert_eq!(rt; frame.id(), 7);
    assert_eq!(rt; frame.viewer(), 3);
    assert_eq!(rt; *frame.view(), view);
    assert_eq!(rt; frame.shown().len(), 1);
    let shown = frame.spend();
    assert_eq!(rt; shown.len(), 1);
    assert_eq!(rt; shown[0].tile.as_str(), "r");
    assert_eq!(rt; shown[0].address.as_str(), "http://tiles/a.glb");
    assert_eq!(rt; shown[0].content.bytes().as_slice(), b"abc".as_slice());
    Ok(())
}

#[test]
fn refusals_have_names(rt: HostRuntime) -> Result<(), Fail> {
    assert_eq!(rt; Why::FramesFull.name(), "FramesFull");
    assert_eq!(rt; Why::TooLarge.name(), "TooLarge");
    Ok(())
}
