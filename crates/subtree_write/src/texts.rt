//! The JSON chunk, without spaces.

ghost use Rattle.std.specs.Prelude.{◌≡◌, ◌++◌, OnOk, decimal, map};
ghost use Rattle.subtree_write.specs.Texts as texts;

use crate::streams::View;
use itoa::Buffer;
use std::alloc::AllocError;

/// Adds a text.
pub fn push(json: &mut Vec<u8>, text: &str) -> Result<(), AllocError>
    ensures { OnOk result (json.new.items ≡ json.old.items ++ text.now) }
{
    json.extend_from_slice(text.as_bytes())
}

/// Adds a number.
pub fn push_number(json: &mut Vec<u8>, number: usize) -> Result<(), AllocError>
    ensures { OnOk result (json.new.items ≡ json.old.items ++ decimal number) }
{
    let mut buffer = Buffer::new();
    push(json, buffer.format(number))
}

/// Adds a constant for all bits.
pub fn push_constant(json: &mut Vec<u8>, value: bool) -> Result<(), AllocError>
    ensures { OnOk result (json.new.items ≡ json.old.items ++ texts.constant_text value) }
{
    if value {
        push(json, r#"{"constant":1}"#)
    } else {
        push(json, r#"{"constant":0}"#)
    }
}

/// Adds the bitstream of a view.
pub fn push_bitstream(json: &mut Vec<u8>, number: usize) -> Result<(), AllocError>
    ensures { OnOk result (json.new.items ≡ json.old.items ++ texts.bitstream_text number) }
{
    push(json, r#"{"bitstream":"#)?;
    push_number(json, number)?;
    push(json, "}")?;
    Ok(())
}

fn push_view(json: &mut Vec<u8>, view: View) -> Result<(), AllocError>
    ensures { OnOk result (json.new.items ≡ json.old.items ++ texts.view_text view) }
{
    push(json, r#"{"buffer":0,"byteOffset":"#)?;
    push_number(json, view.byte_offset)?;
    push(json, r#","byteLength":"#)?;
    push_number(json, view.byte_length)?;
    push(json, "}")?;
    Ok(())
}

/// Adds views, each behind a comma.
fn push_further(json: &mut Vec<u8>, views: &[View]) -> Result<(), AllocError>
    ensures { OnOk result (json.new.items
        ≡ json.old.items ++ texts.further (map texts.view_text views.now)) }
{
    let mut rest = views;
    while let Some((view, more)) = rest.split_first() {
        push(json, ",")?;
        push_view(json, *view)?;
        rest = more;
    }
    Ok(())
}

/// Adds a list of views.
pub fn push_views(json: &mut Vec<u8>, views: &[View]) -> Result<(), AllocError>
    ensures { OnOk result (json.new.items
        ≡ json.old.items ++ texts.list_text (map texts.view_text views.now)) }
{
    let Some((first, more)) = views.split_first() else {
        return push(json, "[]");
    };
    push(json, "[")?;
    push_view(json, *first)?;
    push_further(json, more)?;
    push(json, "]")?;
    Ok(())
}
