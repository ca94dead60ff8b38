//! A subtree that was read.

ghost use Rattle.std.specs.Prelude.{◌≡◌, ◌<◌, ◌^◌, IfOk, length, option_map, slice_get};
ghost use Rattle.json_decimal.specs.View.{value_of};
ghost use Rattle.subtree_binary.specs.Seen.{json_in, or_null};

use avail_bits::Bits;
use bytes::Bytes;
use json_decimal::{Json, JsonError, JsonText, parse};
use std::alloc::{AllocError, Global};
use std::marker::Model;

/// A binary subtree (OGC 22-025r4, "Subtrees"). It shares the bytes that it was read from.
#[derive(Drop)]
pub struct Subtree {
    tiles: Bits,
    contents: Vec<Bits>,
    children: Bits,
    json: Bytes,
    binary: Bytes,
}

impl Model for Subtree {
    ghost use Rattle.std.specs.Coded.{codes};
    ghost use Rattle.json_decimal.specs.Code.{coded_value};
    ghost use Rattle.subtree_binary.specs.Subtrees.{SubtreeParts};

    ghost Value = { SubtreeParts };

    ghost coded = { Prim.hlevel (codes, coded_value) };

    ghost use Rattle.std.specs.Prelude.{◌<◌, ◌^◌, length};
    ghost use Rattle.subtree_binary.specs.Seen.{json_in};

    ghost view = { λ s. record {
      tiles = s.tiles;
      contents = s.contents.items;
      children = s.children;
      json = json_in s.json;
      binary = s.binary;
    } };

    ghost invariant = { λ s. length s.contents.items < 2 ^ 32 };
}

impl Subtree {
    /// The subtree of these bits and chunks.
    pub(crate) fn new(
        tiles: Bits,
        contents: Vec<Bits>,
        children: Bits,
        json: Bytes,
        binary: Bytes,
    ) -> Subtree
        requires { length contents.items < 2 ^ 32 }
        ensures { result ≡ record {
          tiles = tiles;
          contents = contents.items;
          children = children;
          json = json_in json;
          binary = binary;
        } }
    {
        Subtree {
            tiles,
            contents,
            children,
            json,
            binary,
        }
    }

    /// Which tiles there are, by their numbers.
    #[inline]
    pub fn tiles(&self) -> &Bits
        ensures { result.now ≡ self.now.tiles }
    {
        &self.tiles
    }

    /// Which child subtrees there are, by the numbers of the cells below.
    #[inline]
    pub fn children(&self) -> &Bits
        ensures { result.now ≡ self.now.children }
    {
        &self.children
    }

    /// Which tiles have the content `which`, from 0. None exactly where there are no more than so
    /// many contents.
    #[inline]
    pub fn content(&self, which: u32) -> Option<&Bits>
        ensures { option_map (λ bits. bits.now) result ≡ slice_get self.now.contents which }
    {
        self.contents.get(which as usize)
    }

    /// How many contents a tile may have.
    pub fn content_count(&self) -> u32
        ensures { result ≡ length self.now.contents }
    {
        self.contents.len() as u32
    }

    /// The JSON chunk as a value, which is read anew.
    pub fn json(&self, alloc: Global) -> Result<Json, AllocError>
        ensures { IfOk result (λ json. value_of json ≡ self.now.json) }
    {
        match parse(alloc, self.json.as_slice()) {
            Ok(json) => Ok(json),
            Err(JsonError::NotJson) => Ok(Json::Null),
            Err(JsonError::TooLong) => Err(AllocError),
            Err(JsonError::OutOfMemory) => Err(AllocError),
        }
    }

    /// The JSON chunk as a text that is read anew, or None where it reads as no value.
    pub fn text(&self, alloc: Global) -> Result<Option<JsonText<'_>>, AllocError>
        ensures { IfOk result (λ text. or_null text ≡ self.now.json) }
    {
        match JsonText::read(alloc, self.json.as_slice()) {
            Ok(text) => Ok(Some(text)),
            Err(JsonError::NotJson) => Ok(None),
            Err(JsonError::TooLong) => Err(AllocError),
            Err(JsonError::OutOfMemory) => Err(AllocError),
        }
    }

    /// The binary chunk.
    pub fn binary(&self) -> &Bytes
        ensures { result.now ≡ self.now.binary }
    {
        &self.binary
    }
}
