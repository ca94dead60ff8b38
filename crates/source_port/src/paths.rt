//! Which file below the current folder an address names.

ghost use Rattle.std.specs.Prelude.{◌≡◌, ◌<◌, ◌==◌, option_map};
ghost use Rattle.std.specs.List.{before_first, list_all};
ghost use Rattle.source_port.specs.Paths.{is_unreserved, is_name, is_path, path_at};

/// The path that an address names below the current folder.
pub(crate) fn path_of(address: &str) -> Option<&str>
    ensures { option_map (λ path. path.now) result ≡ path_at address.now }
{
    let rest = address.strip_prefix("http://tiles/")?;
    let path = before(before(rest, '#'), '?');
    if is_path(path) { Some(path) } else { None }
}

fn is_path(path: &str) -> bool
    ensures { result ≡ is_path path.now }
{
    path.split('/').all(is_name)
}

/// What stands before the first such character, or all.
fn before(text: &str, character: char) -> &str
    requires { character < 128 }
    ensures { result.now ≡ before_first (λ b. b == character) text.now }
{
    text.split_once(character).map_or(text, |parts| parts.0)
}

fn is_name(segment: &str) -> bool
    ensures { result ≡ is_name segment.now }
{
    !segment.is_empty() && segment != "." && segment != ".." && are_unreserved(segment.as_bytes())
}

fn are_unreserved(bytes: &[u8]) -> bool
    ensures { result ≡ list_all is_unreserved bytes.now }
{
    bytes.iter().all(|byte| is_unreserved(*byte))
}

fn is_unreserved(byte: u8) -> bool
    ensures { result ≡ is_unreserved byte }
{
    byte.is_ascii_alphanumeric() || b"-._~".contains(&byte)
}
