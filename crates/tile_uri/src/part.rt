//! The parts of a template: each is a variable with the literal text behind it.

ghost use Rattle.std.specs.Prelude.{◌≡◌, ◌≤◌, ◌++◌, [], ◌∷◌, true, Some, is_some, IfOk, IfSome, IsUtf8, OnOk, drop, length, option_map, option_copied, string_bytes};
ghost use Rattle.url.specs.Input.{split_once};
ghost use Rattle.tile_uri.specs.Templates as templates;
ghost use Rattle.tile_uri.specs.Templates.{filled, filled_parts, parts_of, texts_behind};

use crate::placing::{place_number, place_text};
use crate::variable::Variable;
use itoa::Buffer;
use std::alloc::{AllocError, Global};
use tile_types::Text;

/// A variable, and the literal text behind it up to the next.
#[derive(Drop)]
pub(crate) struct Part {
    pub(crate) variable: Variable,
    literal: Text,
}

impl Part {
    /// Adds a number in the variable's place, and the literal text.
    pub(crate) fn push_to(&self, out: &mut String, number: u32) -> Result<(), AllocError>
        ensures { OnOk result
            (string_bytes out.new ≡ string_bytes out.old ++ filled number self.now) }
    {
        let mut buffer = Buffer::new();
        out.push_str(buffer.format(number))?;
        out.push_str(self.literal.as_str())?;
        Ok(())
    }

    /// Writes a number in the variable's place, and the literal text, so that they end at `end`,
    /// and answers where they start. Without room they aren't written.
    pub(crate) fn place(&self, bytes: &mut [u8], end: usize, number: u32) -> Option<usize>
        requires within { end ≤ length bytes.old }
        requires utf8 { IsUtf8 (drop end bytes.old) }
        ensures within { IfSome result (λ start. start ≤ end) }
        ensures written { IfSome result
            (λ start. drop start bytes.new ≡ filled number self.now ++ drop end bytes.old) }
        ensures utf8 { IfSome result (λ start. IsUtf8 (drop start bytes.new)) }
    {
        let Some(at) = place_text(bytes, end, self.literal.as_str()) else {
            return None;
        };
        place_number(bytes, at, number)
    }
}

/// Writes parts, each with the number of its variable, at the end of the bytes, and answers where
/// they start. Without room they aren't written.
pub(crate) fn place_parts(
    bytes: &mut [u8],
    parts: &[Part],
    level: u8,
    x: u32,
    y: u32,
    z: u32,
) -> Option<usize>
    ensures within { IfSome result (λ start. start ≤ length bytes.new) }
    ensures written { IfSome result
        (λ start. drop start bytes.new ≡ filled_parts parts.now level x y z) }
    ensures utf8 { IfSome result (λ start. IsUtf8 (drop start bytes.new)) }
{
    let mut at = bytes.len();
    let mut left = parts.len();
    while left > 0 {
        left -= 1;
        let part = &parts[left];
        let Some(start) = part.place(bytes, at, part.variable.number(level, x, y, z)) else {
            return None;
        };
        at = start;
    }
    Some(at)
}

/// Whether each opening brace of the text begins a variable. It takes no memory.
pub(crate) fn is_template(text: &str, octree: bool) -> bool
    ensures { result ≡ templates.is_template octree text.now }
{
    let (_, behind) = split_at_brace(text);
    let mut rest = behind;
    while let Some(text) = rest {
        let (text, more) = split_at_brace(text);
        if part_at(text, octree).is_none() {
            return false;
        }
        rest = more;
    }
    true
}

/// The parts that the text behind the first opening brace is read as.
pub(crate) fn read_parts(
    alloc: Global,
    behind: Option<&str>,
    octree: bool,
) -> Result<Vec<Part>, AllocError>
    requires { is_some (parts_of octree (texts_behind (option_copied behind))) ≡ true }
    ensures { IfOk result
        (λ parts. parts_of octree (texts_behind (option_copied behind.entry)) ≡ Some parts.items) }
{
    let mut parts = Vec::new(alloc);
    let mut rest = behind;
    while let Some(text) = rest {
        let (text, more) = split_at_brace(text);
        let Some((variable, literal)) = part_at(text, octree) else {
            // Each brace begins a variable, so this never comes.
            return Ok(parts);
        };
        push(alloc, &mut parts, variable, literal)?;
        rest = more;
    }
    Ok(parts)
}

fn push(
    alloc: Global,
    parts: &mut Vec<Part>,
    variable: Variable,
    literal: &str,
) -> Result<(), AllocError>
    ensures { OnOk result (parts.new.items
        ≡ parts.old.items ++ record { variable = variable; literal = literal.now } ∷ []) }
{
    let literal = Text::new(alloc, literal)?;
    parts.push(Part { variable, literal })?;
    Ok(())
}

/// What stands before the first opening brace, and behind it.
pub(crate) fn split_at_brace(text: &str) -> (&str, Option<&str>)
    ensures before { result.0.now ≡ (split_once templates.opening_brace text.now).0 }
    ensures behind { option_copied result.1 ≡ (split_once templates.opening_brace text.now).1 }
{
    match text.split_once('{') {
        Some((before, behind)) => (before, Some(behind)),
        None => (text, None),
    }
}

/// The variable whose name and closing brace begin the text, and the text behind it.
fn part_at(text: &str, octree: bool) -> Option<(Variable, &str)>
    ensures { option_map (λ p. record { variable = p.0; literal = p.1.now }) result
        ≡ templates.part_at octree text.now }
{
    if let Some(literal) = text.strip_prefix("level}") {
        return Some((Variable::Level, literal));
    }
    if let Some(literal) = text.strip_prefix("x}") {
        return Some((Variable::X, literal));
    }
    if let Some(literal) = text.strip_prefix("y}") {
        return Some((Variable::Y, literal));
    }
    if octree && let Some(literal) = text.strip_prefix("z}") {
        return Some((Variable::Z, literal));
    }
    None
}
