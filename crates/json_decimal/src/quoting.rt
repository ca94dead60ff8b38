//! Texts as the strings that are printed of them.
ghost use Rattle.std.specs.Prelude.{◌≡◌, ◌<◌, ◌++◌, length, take, OnOk, OnErr};
ghost use Rattle.std.specs.List.{flat_map};
ghost use Rattle.json_decimal.specs.Printed as texts;

use crate::strings::plain_len;
use std::alloc::AllocError;

/// Adds a text as a JSON string, with its quotation marks (RFC 8259, section 7): `"`, `\` and what is
/// below U+0020 are escaped. Refused, it leaves the bytes as they were.
pub fn print_text(text: &str, into: &mut Vec<u8>) -> Result<(), AllocError>
    ensures ok { OnOk result (into.new.items ≡ into.old.items ++ texts.quoted text.now) }
    ensures err { OnErr result (into.new.items ≡ into.old.items) }
{
    let before = into.len();
    let added = push_quoted(text, into);
    if added.is_err() {
        into.truncate(before);
    }
    added
}

/// The same, but refused it leaves something behind the bytes.
pub(crate) fn push_quoted(text: &str, into: &mut Vec<u8>) -> Result<(), AllocError>
    ensures ok { OnOk result (into.new.items ≡ into.old.items ++ texts.quoted text.now) }
    ensures kept { take (length into.old.items) into.new.items ≡ into.old.items }
{
    into.push(b'"')?;
    push_escaped(text.as_bytes(), into)?;
    into.push(b'"')?;
    Ok(())
}

/// Adds the bytes of a text, escaped. Those that stand for themselves are copied run by run.
fn push_escaped(text: &[u8], into: &mut Vec<u8>) -> Result<(), AllocError>
    ensures ok { OnOk result (into.new.items
        ≡ into.old.items ++ flat_map texts.escaped text.now) }
    ensures kept { take (length into.old.items) into.new.items ≡ into.old.items }
{
    let mut rest = text;
    loop {
        let (run, more) = rest.split_at(plain_len(rest));
        into.extend_from_slice(run)?;
        let Some((byte, behind)) = more.split_first() else {
            return Ok(());
        };
        push_byte(*byte, into)?;
        rest = behind;
    }
}

/// Adds a byte of a text, escaped where it has to be.
fn push_byte(byte: u8, into: &mut Vec<u8>) -> Result<(), AllocError>
    ensures ok { OnOk result (into.new.items ≡ into.old.items ++ texts.escaped byte) }
    ensures err { OnErr result (into.new.items ≡ into.old.items) }
{
    if byte == b'"' || byte == b'\\' {
        return into.extend_from_slice(&[b'\\', byte]);
    }
    if byte < b' ' {
        let high = hexadecimal(byte / 16);
        let low = hexadecimal(byte % 16);
        return into.extend_from_slice(&[b'\\', b'u', b'0', b'0', high, low]);
    }
    into.extend_from_slice(&[byte])
}

/// A hexadecimal digit, in lower case.
fn hexadecimal(value: u8) -> u8
    requires { value < 16 }
    ensures { result ≡ texts.hexadecimal value }
{
    if value < 10 {
        b'0' + value
    } else {
        b'a' + (value - 10)
    }
}
