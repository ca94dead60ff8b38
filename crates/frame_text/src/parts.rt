//! Parts of a line, one behind the other.

ghost use Rattle.std.specs.Prelude.{◌≡◌, ◌++◌, ◌+◌, ◌≤◌, ◌^◌, length, IsOk, MatchOption, OnErr};
ghost use Rattle.std.specs.Prelude.{OnOk, string_bytes, string_capacity, string_len};
ghost use Rattle.std.specs.List.{flat_map};

use std::alloc::AllocError;

/// Appends the parts, one behind the other. A refusal leaves the text as it was, and comes only
/// where there is no room for all of them.
pub(crate) fn push_parts(text: &mut String, parts: &[&str]) -> Result<(), AllocError>
    ensures appended { OnOk result (string_bytes text.new
        ≡ string_bytes text.old ++ flat_map (λ part. part.now) parts.now) }
    ensures refused { OnErr result (string_bytes text.new ≡ string_bytes text.old) }
    ensures succeeds { string_len text.old + length (flat_map (λ part. part.now) parts.now)
        ≤ string_capacity text.old → IsOk result }
{
    let Some(room) = whole_length(parts) else {
        return Err(AllocError);
    };
    text.reserve(room)?;
    for part in parts {
        text.push_str(part)?;
    }
    Ok(())
}

/// How many bytes the parts have, where that is a number.
fn whole_length(parts: &[&str]) -> Option<usize>
    ensures { MatchOption result (2 ^ 64 ≤ length (flat_map (λ part. part.now) parts.now))
        (λ whole. whole ≡ length (flat_map (λ part. part.now) parts.now)) }
{
    let mut whole: usize = 0;
    for part in parts {
        whole = whole.checked_add(part.len())?;
    }
    Some(whole)
}
