//! Bytes up to a mark, and lines.

ghost use Rattle.std.specs.Prelude.{◌≡◌, ◌<◌, ◌∷◌, ◌==◌, [], IfSome, MatchOption, length, position};
ghost use Rattle.std.specs.Str.Lines.{lines, strip_carriage_return};
ghost use Rattle.session_script.specs.Ascii.{parts_at};

/// What stands before the first such mark, and what stands behind it, where there is one.
pub(crate) fn first_piece(bytes: &[u8], mark: u8) -> (&[u8], Option<&[u8]>)
    ensures parts { MatchOption result.1
        (parts_at mark bytes.now ≡ result.0.now ∷ [])
        (λ more. parts_at mark bytes.now ≡ result.0.now ∷ parts_at mark more.now) }
    ensures whole { MatchOption result.1
        (result.0.now ≡ bytes.now) (λ more. length more.now < length bytes.now) }
{
    match position_of(bytes, mark) {
        Some(at) => (&bytes[..at], Some(&bytes[at + 1..])),
        None => (bytes, None),
    }
}

/// Where the first such mark stands.
fn position_of(bytes: &[u8], mark: u8) -> Option<usize>
    ensures value { result ≡ position (λ byte. byte == mark) bytes.now }
    ensures within { IfSome result (λ at. at < length bytes.now) }
{
    bytes.iter().position(|byte| *byte == mark)
}

/// The first line of a text that isn't empty, and what stands behind it.
pub(crate) fn first_line(bytes: &[u8]) -> (&[u8], &[u8])
    requires { 0 < length bytes.now }
    ensures line { lines bytes.now ≡ result.0.now ∷ lines result.1.now }
    ensures shorter { length result.1.now < length bytes.now }
{
    let (line, behind) = first_piece(bytes, b'\n');
    match behind {
        Some(more) => (without_carriage_return(line), more),
        None => (line, b""),
    }
}

/// The line without the one carriage return at its end, if it has one.
fn without_carriage_return(line: &[u8]) -> &[u8]
    ensures { result.now ≡ strip_carriage_return line.now }
{
    match line.last() {
        Some(b'\r') => &line[..line.len() - 1],
        _ => line,
    }
}
