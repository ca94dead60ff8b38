//! Template URIs, which name an address for each tile of an implicit tileset.

ghost use Rattle.std.specs.Prelude.{◌≡◌, ◌≤◌, ◌++◌, true, Err, IfErr, IfOk, IfSome, IsUtf8, drop, length, string_bytes};
ghost use Rattle.tile_uri.specs.Addresses.{Answers};
ghost use Rattle.tile_uri.specs.Templates as templates;
ghost use Rattle.tile_uri.specs.Templates.{split_at_braces, template_of};

use crate::address::ADDRESS_LIMIT;
use crate::error::UriError;
use crate::part::{Part, is_template, place_parts, read_parts, split_at_brace};
use crate::placing::place_text;
use std::alloc::{AllocError, Global};
use std::marker::Model;
use tile_types::Text;

/// How many digits more a number may have than its variable has characters: ten stand for `{x}`.
const SURPLUS_DIGITS: usize = 7;

/// How long a filled template may be to be written at once into bytes on the stack.
const COMMON_LENGTH: usize = 128;

/// A text with the variables `{level}`, `{x}`, `{y}` and `{z}` for the numbers of a tile (OGC
/// 22-025r4, "Template URIs"). Contracts see the text.
#[derive(Drop)]
pub struct Template {
    text: Text,
    /// The text before the first variable.
    head: Text,
    parts: Vec<Part>,
}

impl Model for Template {
    ghost use Rattle.std.specs.Prelude.{List, ℕ};
    ghost use Rattle.tile_uri.specs.Templates.{IsRead};

    ghost Value = { List ℕ };

    ghost view = { λ t. t.text };

    ghost invariant = { λ t. IsRead t.text t.head t.parts.items };
}

impl Template {
    /// The template of a text, which may use `{z}` in an octree alone. No variable is required.
    pub fn read(alloc: Global, text: &str, octree: bool) -> Result<Template, UriError>
        ensures value { Answers result (template_of octree text.now) }

        // What is no template is refused as such, also where there is no memory.
        ensures refused { IfErr (template_of octree text.now) (λ cause. result ≡ Err cause) }
    {
        if !is_template(text, octree) {
            return Err(UriError::Placeholder);
        }
        if ADDRESS_LIMIT < text.len() {
            return Err(UriError::TooLong);
        }
        match Template::read_checked(alloc, text, octree) {
            Ok(template) => Ok(template),
            Err(_) => Err(UriError::OutOfMemory),
        }
    }

    /// The same of a text that is known to be a template.
    fn read_checked(alloc: Global, text: &str, octree: bool) -> Result<Template, AllocError>
        requires { templates.is_template octree text.now ≡ true }
        ensures { IfOk result (λ t. t ≡ text.now) }
    {
        let (head, behind) = split_at_brace(text);
        let parts = read_parts(alloc, behind, octree)?;
        let head = Text::new(alloc, head)?;
        let text = Text::new(alloc, text)?;
        Ok(Template { text, head, parts })
    }

    /// The text with each variable replaced by its number in decimal: the level of a tile, and its
    /// place there.
    pub fn fill(&self, alloc: Global, level: u8, x: u32, y: u32, z: u32) -> Result<Text, AllocError>
        ensures { IfOk result (λ t. t ≡ templates.fill self.now level x y z) }
    {
        self.fill_behind(alloc, "", level, x, y, z)
    }

    /// The same behind another text.
    pub(crate) fn fill_behind(
        &self,
        alloc: Global,
        front: &str,
        level: u8,
        x: u32,
        y: u32,
        z: u32,
    ) -> Result<Text, AllocError>
        ensures { IfOk result (λ t. t ≡ front.now ++ templates.fill self.now level x y z) }
    {
        let mut bytes = [0; COMMON_LENGTH];
        if let Some(start) = self.place_behind(&mut bytes, front, level, x, y, z) {
            // What was written are texts and digits.
            let whole = unsafe { str::from_utf8_unchecked(&bytes[start..]) };
            return Text::new(alloc, whole);
        }
        Ok(Text::from(self.write_behind(alloc, front, level, x, y, z)?))
    }

    /// The same at the end of the bytes, with the place where it starts. Without room it isn't
    /// written.
    fn place_behind(
        &self,
        bytes: &mut [u8],
        front: &str,
        level: u8,
        x: u32,
        y: u32,
        z: u32,
    ) -> Option<usize>
        ensures within { IfSome result (λ start. start ≤ length bytes.new) }
        ensures written { IfSome result
            (λ start. drop start bytes.new ≡ front.now ++ templates.fill self.now level x y z) }
        ensures utf8 { IfSome result (λ start. IsUtf8 (drop start bytes.new)) }
    {
        let Some(at) = place_parts(bytes, self.parts.as_slice(), level, x, y, z) else {
            return None;
        };
        let Some(at) = place_text(bytes, at, self.head.as_str()) else {
            return None;
        };
        place_text(bytes, at, front)
    }

    /// The same as a string of any length.
    fn write_behind(
        &self,
        alloc: Global,
        front: &str,
        level: u8,
        x: u32,
        y: u32,
        z: u32,
    ) -> Result<String, AllocError>
        ensures { IfOk result
            (λ t. string_bytes t ≡ front.now ++ templates.fill self.now level x y z) }
    {
        let mut whole = self.start(alloc, front)?;
        for part in &self.parts {
            part.push_to(&mut whole, part.variable.number(level, x, y, z))?;
        }
        Ok(whole)
    }

    /// The text before the first variable behind another, with room for the rest.
    fn start(&self, alloc: Global, front: &str) -> Result<String, AllocError>
        ensures { IfOk result (λ t. string_bytes t ≡ front.now ++ (split_at_braces self.now).0) }
    {
        let room = front
            .len()
            .saturating_add(self.text.as_str().len())
            .saturating_add(self.parts.len().saturating_mul(SURPLUS_DIGITS));
        let mut whole = String::with_capacity(alloc, room)?;
        whole.push_str(front)?;
        whole.push_str(self.head.as_str())?;
        Ok(whole)
    }
}
