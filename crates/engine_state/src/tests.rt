//! What no clause says: that there is an answer where there is memory.

use crate::EntryView;
use error_test::View;
use fixed_geometry::Point;
use std::test::Fail;

#[test]
fn a_view_is_kept(rt: HostRuntime) -> Result<(), Fail> {
    let eye = Point {
        x: 0,
        y: 0,
        z: 10_000,
    };
    let view = View::new(eye, 1080, 1, 2, 256, &[])?;
    let kept = EntryView::new(rt.alloc(), &view)?;
    assert_eq!(rt; *kept.view(), view);
    Ok(())
}
