//! The values of the members of a tile that are read (OGC 22-025r4, "Tiles").

ghost use Rattle.std.specs.Prelude.{◌≡◌};
ghost use Rattle.json_decimal.specs.Handles.{json_of, text_in, members_left};
ghost use Rattle.tileset_schema.specs.Named.{no_values, with_member, with_members};
ghost use Rattle.tileset_schema.specs.ByValues.{are_common};
ghost use Rattle.tileset_schema.specs.ValuesSeen.{values_seen};

use crate::members::put_at;
use json_decimal::{JsonMembers, JsonRef, JsonString};

/// The value of the last member of each name that is read, where there is one.
#[derive(Clone, Copy)]
pub struct TileValues<'a> {
    pub bounding_volume: Option<JsonRef<'a>>,
    pub viewer_request_volume: Option<JsonRef<'a>>,
    pub geometric_error: Option<JsonRef<'a>>,
    pub refine: Option<JsonRef<'a>>,
    pub transform: Option<JsonRef<'a>>,
    pub content: Option<JsonRef<'a>>,
    pub contents: Option<JsonRef<'a>>,
    pub implicit_tiling: Option<JsonRef<'a>>,
    pub children: Option<JsonRef<'a>>,
}

impl<'a> TileValues<'a> {
    #[inline(always)]
    pub fn new() -> TileValues<'a>
        ensures { values_seen result ≡ no_values }
    {
        TileValues {
            bounding_volume: None,
            viewer_request_volume: None,
            geometric_error: None,
            refine: None,
            transform: None,
            content: None,
            contents: None,
            implicit_tiling: None,
            children: None,
        }
    }

    /// Takes the values of the members of an object, in one pass over them. It is a call of its
    /// own, so that the values stay where they are.
    #[inline(never)]
    pub fn take(&mut self, members: JsonMembers<'a>)
        ensures { values_seen self.new
            ≡ with_members (values_seen self.old) (members_left members.entry) }
    {
        let mut rest = members;
        while let Some((name, value)) = rest.next() {
            self.put(name, value);
        }
    }

    #[inline(always)]
    fn put(&mut self, name: JsonString<'a>, value: JsonRef<'a>)
        ensures { values_seen self.new
            ≡ with_member (values_seen self.old) (text_in name.entry, json_of value.entry) }
    {
        put_at(&mut self.bounding_volume, "boundingVolume", name, value);
        put_at(
            &mut self.viewer_request_volume,
            "viewerRequestVolume",
            name,
            value,
        );
        put_at(&mut self.geometric_error, "geometricError", name, value);
        put_at(&mut self.refine, "refine", name, value);
        put_at(&mut self.transform, "transform", name, value);
        put_at(&mut self.content, "content", name, value);
        put_at(&mut self.contents, "contents", name, value);
        put_at(&mut self.implicit_tiling, "implicitTiling", name, value);
        put_at(&mut self.children, "children", name, value);
    }

    /// Whether the tile says nothing that few tiles say.
    #[inline(always)]
    pub fn are_common(&self) -> bool
        ensures { result ≡ are_common (values_seen self.now) }
    {
        self.viewer_request_volume.is_none()
            && self.transform.is_none()
            && self.contents.is_none()
            && self.implicit_tiling.is_none()
    }
}
