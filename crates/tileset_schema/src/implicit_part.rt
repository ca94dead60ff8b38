//! What an implicit root says of the tiles below it.

ghost use Rattle.std.specs.Prelude.{◌≡◌, ◌<◌, ◌^◌, length};
ghost use Rattle.tileset_schema.specs.Implicit.{HasLevels};

use std::marker::Model;
use tile_uri::Template;

/// What an implicit root says of the tiles below it (OGC 22-025r4, "Implicit Tiling").
#[derive(Drop)]
pub struct ImplicitPart {
    octree: bool,
    subtree_levels: u8,
    available_levels: u8,
    subtrees: Template,
    contents: Vec<Template>,
}

impl Model for ImplicitPart {
    ghost use Rattle.std.specs.Prelude.{◌<◌, ◌^◌, length};
    ghost use Rattle.tileset_schema.specs.Implicit.{HasLevels, ImplicitParts};

    ghost Value = { ImplicitParts };

    ghost view = { λ p. record {
      octree = p.octree;
      subtree_levels = p.subtree_levels;
      available_levels = p.available_levels;
      subtrees = p.subtrees;
      contents = p.contents.items;
    } };

    ghost invariant = { λ p.
        HasLevels p.octree p.subtree_levels p.available_levels
        × (length p.contents.items < 2 ^ 32) };
}

impl ImplicitPart {
    pub(crate) fn new(
        octree: bool,
        subtree_levels: u8,
        available_levels: u8,
        subtrees: Template,
        contents: Vec<Template>,
    ) -> ImplicitPart
        requires levels { HasLevels octree subtree_levels available_levels }
        requires few { length contents.items < 2 ^ 32 }
        ensures { result ≡ record {
          octree = octree;
          subtree_levels = subtree_levels;
          available_levels = available_levels;
          subtrees = subtrees;
          contents = contents.items;
        } }
    {
        ImplicitPart {
            octree,
            subtree_levels,
            available_levels,
            subtrees,
            contents,
        }
    }

    /// Whether the tiles are those of an octree, and not of a quadtree.
    pub fn octree(&self) -> bool
        ensures { result ≡ self.now.octree }
    {
        self.octree
    }

    /// How many levels each subtree has (OGC 22-025r4, "Subtrees").
    pub fn subtree_levels(&self) -> u8
        ensures value { result ≡ self.now.subtree_levels }
        ensures within { HasLevels self.now.octree self.now.subtree_levels
            self.now.available_levels }
    {
        self.subtree_levels
    }

    /// How many levels there are in all, that of the root counted.
    pub fn available_levels(&self) -> u8
        ensures value { result ≡ self.now.available_levels }
        ensures within { HasLevels self.now.octree self.now.subtree_levels
            self.now.available_levels }
    {
        self.available_levels
    }

    /// The template of the addresses of the subtrees (OGC 22-025r4, "Template URIs").
    pub fn subtrees(&self) -> &Template
        ensures { result.now ≡ self.now.subtrees }
    {
        &self.subtrees
    }

    /// The templates of the addresses of each tile's contents, in order.
    pub fn contents(&self) -> &[Template]
        ensures value { result.now ≡ self.now.contents }
        ensures few { length self.now.contents < 2 ^ 32 }
    {
        self.contents.as_slice()
    }
}
