//! The table of commands.

ghost use Rattle.std.specs.Prelude.{◌≢◌, IsErrOf, IsNone, length};
ghost use Rattle.words_table.specs.Commands.{Answers, HasNoOption, command_in, command_of};
ghost use Rattle.words_table.specs.Commands.{cut_form, form_of, meta_form, root_alone, texts};
ghost use Rattle.words_table.specs.Commands.{tiles_form};

use crate::command::Command;
use crate::command_name::{CommandName, split_name};
use crate::error::WordsError;
use crate::places::{cut_words, only_word};
use crate::word::{root_of, view_of};
use std::alloc::Global;
use tile_uri::Address;

/// The command that the words behind the program's name are.
///
/// Errors: `NotACommand` where they are none, or `OutOfMemory`.
pub fn read_words(alloc: Global, words: &[&str]) -> Result<Command, WordsError>
    ensures value { Answers result (command_of (texts words.now)) }

    // Whatever memory there is.
    ensures formless { IsNone (form_of (texts words.now)) → IsErrOf result WordsError.NotACommand }
{
    match split_name(words) {
        Some((CommandName::Cut, behind)) => read_cut(alloc, behind),
        Some((CommandName::Tiles, behind)) => read_tiles(alloc, behind),
        Some((CommandName::Meta, behind)) => read_meta(alloc, behind),
        None => Err(WordsError::NotACommand),
    }
}

/// `cut ROOT VIEW`, of the words behind `cut`. That they are two, and that the second is of a view,
/// is told before any memory is asked for.
fn read_cut(alloc: Global, words: &[&str]) -> Result<Command, WordsError>
    requires { HasNoOption (texts words.now) }
    ensures value { Answers result (command_in (cut_form (texts words.now))) }
    ensures formless { IsNone (cut_form (texts words.now))
        → IsErrOf result WordsError.NotACommand }
{
    if words.len() != 2 {
        return Err(WordsError::NotACommand);
    }
    let Some(view) = view_of(words[1]) else {
        return Err(WordsError::NotACommand);
    };
    let cut = match cut_words(alloc, words) {
        Ok(cut) => cut,
        Err(cause) => return Err(cause),
    };
    match root_of(alloc, cut.root) {
        Ok(root) => Ok(Command::Cut { root, view }),
        Err(cause) => Err(cause),
    }
}

/// `tiles ROOT`, of the words behind `tiles`.
fn read_tiles(alloc: Global, words: &[&str]) -> Result<Command, WordsError>
    requires { HasNoOption (texts words.now) }
    ensures value { Answers result (command_in (tiles_form (texts words.now))) }
    ensures formless { IsNone (tiles_form (texts words.now))
        → IsErrOf result WordsError.NotACommand }
{
    match read_root(alloc, words) {
        Ok(root) => Ok(Command::Tiles { root }),
        Err(cause) => Err(cause),
    }
}

/// `meta ROOT`, of the words behind `meta`.
fn read_meta(alloc: Global, words: &[&str]) -> Result<Command, WordsError>
    requires { HasNoOption (texts words.now) }
    ensures value { Answers result (command_in (meta_form (texts words.now))) }
    ensures formless { IsNone (meta_form (texts words.now))
        → IsErrOf result WordsError.NotACommand }
{
    match read_root(alloc, words) {
        Ok(root) => Ok(Command::Meta { root }),
        Err(cause) => Err(cause),
    }
}

/// The address of the one word behind a command that takes a root alone. That there is just one is
/// told before any memory is asked for.
fn read_root(alloc: Global, words: &[&str]) -> Result<Address, WordsError>
    requires { HasNoOption (texts words.now) }
    ensures value { Answers result (root_alone (texts words.now)) }
    ensures formless { length (texts words.now) ≢ 1 → IsErrOf result WordsError.NotACommand }
{
    if words.len() != 1 {
        return Err(WordsError::NotACommand);
    }
    match only_word(alloc, words) {
        Ok(word) => root_of(alloc, word),
        Err(cause) => Err(cause),
    }
}
