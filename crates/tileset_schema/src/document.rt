//! A document that was read.

ghost use Rattle.std.specs.Prelude.{◌≡◌, option_map};
ghost use Rattle.json_decimal.specs.View.{value_of};

use crate::written::Written;
use json_decimal::Json;
use std::marker::Model;

/// A tileset document (OGC 22-025r4, "Tileset JSON").
#[derive(Drop)]
pub struct Document {
    tiles: Vec<Written>,
    schema: Option<Json>,
}

impl Model for Document {
    ghost use Rattle.std.specs.Coded.{codes};
    ghost use Rattle.json_decimal.specs.Code.{coded_value};
    ghost use Rattle.tileset_schema.specs.Whole.{WholeDocument};

    ghost Value = { WholeDocument };

    ghost coded = { Prim.hlevel (codes, coded_value) };

    ghost use Rattle.std.specs.Prelude.{option_map};
    ghost use Rattle.json_decimal.specs.View.{value_of};

    ghost view = { λ d. record { rows = d.tiles.items; schema = option_map value_of d.schema } };
}

impl Document {
    pub(crate) fn new(tiles: Vec<Written>, schema: Option<Json>) -> Document
        ensures rows { result.rows ≡ tiles.items }
        ensures schema { result.schema ≡ option_map value_of schema }
    {
        Document { tiles, schema }
    }

    /// The tiles that the document writes out, in preorder, the root first.
    pub fn tiles(&self) -> &[Written]
        ensures { result.now ≡ self.now.rows }
    {
        self.tiles.as_slice()
    }

    /// The metadata schema beside the tiles, where there is one (OGC 22-025r4, "Metadata").
    pub fn schema(&self) -> Option<&Json>
        ensures { option_map (λ json. value_of json.now) result ≡ self.now.schema }
    {
        self.schema.as_ref()
    }
}
