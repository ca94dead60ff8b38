//! Whole numbers in canonical decimal: an optional `-`, no leading zero, no `-0`.

ghost use Rattle.std.specs.Fmt.{decimal, signed_decimal};
ghost use Rattle.session_script.specs.Ascii.{comma};
ghost use Rattle.session_script.specs.Readers.{Reads, ReadsPrefix};
ghost use Rattle.session_script.specs.ViewTexts.{IsNumberOf32, IsNumberOf64};

use crate::marks::cut;
use itoa::Buffer;

/// The number that the text spells, with or without a sign.
pub(crate) fn signed_number(text: &str) -> Option<i64>
    ensures { Reads signed_decimal IsNumberOf64 text.now result }
{
    let number = text.parse::<i64>().ok()?;
    let mut buffer = Buffer::new();
    if buffer.format(number) == text {
        Some(number)
    } else {
        None
    }
}

/// The number that is spelled before the first comma, and what stands behind that comma.
pub(crate) fn number_and_rest(text: &str) -> Option<(i64, &str)>
    ensures { ReadsPrefix signed_decimal IsNumberOf64 comma text.now result }
{
    let (number, rest) = cut(text, ',')?;
    Some((signed_number(number)?, rest))
}

/// The number without a sign that the text spells.
pub(crate) fn number(text: &str) -> Option<u32>
    ensures { Reads decimal IsNumberOf32 text.now result }
{
    let number = text.parse::<u32>().ok()?;
    let mut buffer = Buffer::new();
    if buffer.format(number) == text {
        Some(number)
    } else {
        None
    }
}
