//! The words at the places of a command, which `clap` counts and hands out.

ghost use Rattle.std.specs.Prelude.{◌≡◌, ◌≢◌, ◌∷◌, [], false, true, IfErr, IfOk, length};
ghost use Rattle.clap.specs.Faults.{is_simple_and_free};
ghost use Rattle.clap.specs.Simple.{app_of};
ghost use Rattle.clap.specs.Walk.{rule_of};
ghost use Rattle.words_table.specs.Commands.{HasNoOption, texts};
ghost use Rattle.words_table.specs.Places as places;
ghost use Rattle.words_table.specs.Places.{HasMatches, IsRefused, cut_app, one_word_app, plain_app};

use crate::error::WordsError;
use clap::error::ErrorKind;
use clap::{Arg, ArgMatches, Command};
use std::alloc::{AllocError, Global};

/// The words behind `cut`.
#[derive(Clone, Copy)]
pub(crate) struct CutWords<'a> {
    pub(crate) root: &'a str,
    pub(crate) view: &'a str,
}

/// The words behind `cut`, of which none begins with `-`. Errors: `NotACommand` where they aren't
/// two, or `OutOfMemory`.
pub(crate) fn cut_words<'a>(alloc: Global, words: &'a [&'a str]) -> Result<CutWords<'a>, WordsError>
    requires { HasNoOption (texts words.now) }
    ensures found { IfOk result
        (λ cut. texts words.entry.now ≡ cut.root.now ∷ cut.view.now ∷ []) }
    ensures none { IfErr result
        (λ e. e ≡ WordsError.NotACommand → length (texts words.entry.now) ≢ 2) }
{
    let Ok(command) = cut_command(alloc) else {
        return Err(WordsError::OutOfMemory);
    };
    let matches = match matches_of(command, words) {
        Ok(matches) => matches,
        Err(cause) => return Err(cause),
    };
    Ok(CutWords {
        root: matches.get_str("root").unwrap(),
        view: matches.get_str("view").unwrap(),
    })
}

/// The word behind a command that takes one, where no word begins with `-`. Errors: `NotACommand`
/// where there isn't just one, or `OutOfMemory`.
pub(crate) fn only_word<'a>(alloc: Global, words: &'a [&'a str]) -> Result<&'a str, WordsError>
    requires { HasNoOption (texts words.now) }
    ensures found { IfOk result (λ word. texts words.entry.now ≡ word.now ∷ []) }
    ensures none { IfErr result
        (λ e. e ≡ WordsError.NotACommand → length (texts words.entry.now) ≢ 1) }
{
    let Ok(command) = one_word_command(alloc) else {
        return Err(WordsError::OutOfMemory);
    };
    let matches = match matches_of(command, words) {
        Ok(matches) => matches,
        Err(cause) => return Err(cause),
    };
    Ok(matches.get_str("word").unwrap())
}

/// What a command finds in words. Errors: `NotACommand` where it doesn't take them, or
/// `OutOfMemory`.
fn matches_of<'a>(command: Command<'a>, words: &'a [&'a str]) -> Result<ArgMatches<'a>, WordsError>
    requires { is_simple_and_free (app_of command) ≡ true }
    ensures found { IfOk result (HasMatches (app_of command.entry) (texts words.entry.now)) }
    ensures none { IfErr result (λ e. e ≡ WordsError.NotACommand
        → IsRefused (app_of command.entry) (texts words.entry.now)) }
{
    match command.try_get_matches_from(words) {
        Ok(matches) => Ok(matches),
        Err(error) => {
            if error.kind() == ErrorKind::OutOfMemory {
                Err(WordsError::OutOfMemory)
            } else {
                Err(WordsError::NotACommand)
            }
        }
    }
}

/// `cut ROOT VIEW`.
fn cut_command<'a>(alloc: Global) -> Result<Command<'a>, AllocError>
    ensures { IfOk result (λ c. app_of c ≡ cut_app) }
{
    plain_command(alloc, "cut")
        .arg(place(alloc, "root"))?
        .arg(place(alloc, "view"))
}

/// A command that takes one word.
fn one_word_command<'a>(alloc: Global) -> Result<Command<'a>, AllocError>
    ensures { IfOk result (λ c. app_of c ≡ one_word_app) }
{
    plain_command(alloc, "command").arg(place(alloc, "word"))
}

/// A command of which all words are its own, with neither help nor version.
fn plain_command<'a>(alloc: Global, name: &'a str) -> Command<'a>
    ensures { app_of result ≡ plain_app name.entry.now }
{
    Command::new(alloc, name)
        .no_binary_name(true)
        .disable_help_flag(true)
        .disable_version_flag(true)
}

/// A place where a word has to stand.
fn place<'a>(alloc: Global, name: &'a str) -> Arg<'a>
    ensures rule { rule_of result ≡ places.place name.entry.now }
    ensures own { result.global ≡ false }
{
    Arg::new(alloc, name).required(true)
}
