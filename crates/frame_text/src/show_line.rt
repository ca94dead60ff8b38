//! The line of one content that a frame shows.

ghost use Rattle.std.specs.Prelude.{◌≡◌, ◌++◌, ◌+◌, ◌≤◌, length, IfOk, IsOk, OnErr, OnOk};
ghost use Rattle.std.specs.Prelude.{string_bytes, string_capacity, string_len};
ghost use Rattle.hex.specs.Hex.{encode_lower};
ghost use Rattle.frame_text.specs.Lines.{show_line};

use crate::parts::push_parts;
use itoa::Buffer;
use std::alloc::{AllocError, Global};
use tile_types::Text;

/// How many hexadecimal digits a SHA-256 digest has.
const DIGEST_DIGITS: usize = 64;

/// The line `show TILE ADDRESS LENGTH DIGEST` with its line feed: a tile's name, the address of one
/// of its contents, the content's length in bytes, and its SHA-256 digest in lower-case hexadecimal
/// digits.
pub fn shown_text(
    alloc: Global,
    tile: &Text,
    address: &Text,
    len: u64,
    digest: &[u8; 32],
) -> Result<Text, AllocError>
    ensures { IfOk result (λ line.
        line ≡ show_line tile.now address.now len digest.now) }
{
    let mut line = String::new(alloc);
    push_show_line(&mut line, tile.as_str(), address.as_str(), len, digest)?;
    Ok(Text::from(line))
}

/// Appends the line that `shown_text` gives. A refusal leaves the text as it was, and comes only
/// where the text has no room for the line.
#[tactic(auto, unfolding(crate::specs::Lines::show_line))]
pub fn push_show_line(
    text: &mut String,
    tile: &str,
    address: &str,
    len: u64,
    digest: &[u8; 32],
) -> Result<(), AllocError>
    ensures appended { OnOk result (string_bytes text.new
        ≡ string_bytes text.old ++ show_line tile.now address.now len digest.now) }
    ensures refused { OnErr result (string_bytes text.new ≡ string_bytes text.old) }
    ensures succeeds { string_len text.old
        + length (show_line tile.now address.now len digest.now)
        ≤ string_capacity text.old → IsOk result }
{
    let mut number = Buffer::new();
    let mut digits = [0; DIGEST_DIGITS];
    let length = number.format(len);
    let digest = hex_digits(digest, &mut digits);
    push_parts(
        text,
        &["show ", tile, " ", address, " ", length, " ", digest, "\n"],
    )
}

/// The hexadecimal digits of a digest.
fn hex_digits<'a>(digest: &[u8; 32], digits: &'a mut [u8; DIGEST_DIGITS]) -> &'a str
    ensures { result.now ≡ encode_lower digest.now }
{
    match hex::encode_to_slice(digest, digits) {
        // Hexadecimal digits are ASCII.
        Ok(()) => unsafe { str::from_utf8_unchecked(digits) },
        // There is room for two digits a byte.
        Err(_) => unreachable!(),
    }
}
