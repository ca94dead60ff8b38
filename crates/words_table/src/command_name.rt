//! The first word, which names the command, and the words behind it.

ghost use Rattle.std.specs.Prelude.{◌≡◌, option_map};
ghost use Rattle.std.specs.List.{list_any};
ghost use Rattle.words_table.specs.Commands as commands;
ghost use Rattle.words_table.specs.Commands.{named, texts};

/// The names of the commands.
#[derive(Clone, Copy)]
pub(crate) enum CommandName {
    Cut,
    Tiles,
    Meta,
}

/// What the first word names, and the words behind it, of which none begins with `-`. Takes no
/// memory.
pub(crate) fn split_name<'a>(words: &'a [&'a str]) -> Option<(CommandName, &'a [&'a str])>
    ensures { option_map (λ r. (r.0, texts r.1.now)) result ≡ named (texts words.now) }
{
    let (first, behind) = words.split_first()?;
    let name = name_of(first)?;
    if has_option(behind) {
        return None;
    }
    Some((name, behind))
}

/// The command that a word names.
fn name_of(word: &str) -> Option<CommandName>
    ensures { result ≡ commands.name_of word.now }
{
    match word {
        "cut" => Some(CommandName::Cut),
        "tiles" => Some(CommandName::Tiles),
        "meta" => Some(CommandName::Meta),
        _ => None,
    }
}

/// Whether some word begins with `-`.
fn has_option(words: &[&str]) -> bool
    ensures { result ≡ list_any (λ word. commands.is_option word.now) words.now }
{
    words.iter().any(|word| is_option(word))
}

fn is_option(word: &str) -> bool
    ensures { result ≡ commands.is_option word.now }
{
    word.as_bytes().starts_with(b"-")
}
