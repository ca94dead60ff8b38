//! Texts of views: read, refused, written and read back.

use crate::{read_back, read_view, view_text};
use error_test::{View, ViewError};
use fixed_geometry::Point;
use volumes::Plane;

fn east_of(d: i64) -> Plane {
    Plane {
        n: Point { x: 1, y: 0, z: 0 },
        d,
    }
}

fn view_of(planes: &[Plane]) -> Result<View, ViewError> {
    View::new(Point { x: 1, y: -2, z: 30 }, 1080, 1, 2, 256, planes)
}

#[test]
fn views_that_are_read(rt: HostRuntime) {
    assert!(rt; read_view("@1,-2,30:1080:1/2:256") == view_of(&[]).ok());
    let planes = [east_of(-5), east_of(7)];
    assert!(rt; read_view("@1,-2,30:1080:1/2:256:1,0,0,-5:1,0,0,7") == view_of(&planes).ok());
}

/// Texts that spell no view, second spellings of one, and views past their limits.
#[test]
fn texts_that_spell_no_view(rt: HostRuntime) {
    let rows = [
        "",
        "0,0,0:1:1/1:1",
        "@0,0:1:1/1:1",
        "@0,0,0:1:1:1",
        "@0,0,0:1:1/1",
        "@0,0,0:1:1/1:1:",
        "@0,0,0:1:1/1:1 ",
        "@0,0,0:1:1/1:1:1,0,0",
        "@00,0,0:1:1/1:1",
        "@+1,0,0:1:1/1:1",
        "@-0,0,0:1:1/1:1",
        "@0,0,0:01:1/1:1",
        "@0,0,0:1:1/1:+1",
        "@0,0,0:0:1/1:1",
        "@0,0,0:1:1/1:1:0,0,0,1",
        "@0,0,9223372036854775808:1:1/1:1",
    ];
    for text in rows.iter() {
        assert_eq!(rt; read_view(text), None);
    }
}

#[test]
fn a_view_that_is_written_and_read_back(rt: HostRuntime) {
    let Ok(view) = view_of(&[east_of(-5), east_of(7)]) else {
        return assert!(rt; false);
    };
    let Ok(text) = view_text(rt.alloc(), &view) else {
        return assert!(rt; false);
    };
    assert_eq!(rt; text.as_str(), "@1,-2,30:1080:1/2:256:1,0,0,-5:1,0,0,7");
    let Ok(again) = read_back(rt.alloc(), &view) else {
        return assert!(rt; false);
    };
    assert!(rt; again == Some(view));
}
