//! Which words are which command. What is expected of addresses is what another implementation of
//! the URL Standard answers.

use super::*;
use error_test::View;
use session_script::view_text;
use std::process::Abort;
use std::test::Fail;

const VIEW: &str = "@0,0,10000:1080:1/2:256";

/// What words are to be.
#[derive(Clone, Copy)]
enum Wanted<'a> {
    /// The cut of this root, with the view of `VIEW`.
    Cut(&'a str),
    Tiles(&'a str),
    Meta(&'a str),
    Nothing,
}

/// Words, and what they are to be.
#[derive(Clone, Copy)]
struct Row<'a> {
    words: &'a [&'a str],
    wanted: Wanted<'a>,
}

static CUTS: [Row; 4] = [
    Row {
        words: &["cut", "t.json", VIEW],
        wanted: Wanted::Cut("http://tiles/t.json"),
    },
    Row {
        words: &["cut", "../a b.json", VIEW],
        wanted: Wanted::Cut("http://tiles/a%20b.json"),
    },
    Row {
        words: &["cut", "http://example.org/t.json", VIEW],
        wanted: Wanted::Cut("http://example.org/t.json"),
    },
    Row {
        words: &["cut", "", VIEW],
        wanted: Wanted::Cut("http://tiles/"),
    },
];

static TILES: [Row; 4] = [
    Row {
        words: &["tiles", "t.json"],
        wanted: Wanted::Tiles("http://tiles/t.json"),
    },
    Row {
        words: &["tiles", "../a b.json"],
        wanted: Wanted::Tiles("http://tiles/a%20b.json"),
    },
    Row {
        words: &["tiles", "http://example.org/t.json"],
        wanted: Wanted::Tiles("http://example.org/t.json"),
    },
    Row {
        words: &["tiles", ""],
        wanted: Wanted::Tiles("http://tiles/"),
    },
];

static METAS: [Row; 4] = [
    Row {
        words: &["meta", "t.json"],
        wanted: Wanted::Meta("http://tiles/t.json"),
    },
    Row {
        words: &["meta", "../a b.json"],
        wanted: Wanted::Meta("http://tiles/a%20b.json"),
    },
    Row {
        words: &["meta", "http://example.org/t.json"],
        wanted: Wanted::Meta("http://example.org/t.json"),
    },
    Row {
        words: &["meta", ""],
        wanted: Wanted::Meta("http://tiles/"),
    },
];

/// Words that are no command: a word too few or too many, an option, another name, another spelling
/// of a view, and what is no address.
static NOTHING: [&[&str]; 33] = [
    &[],
    &[""],
    &["cut"],
    &["cut", "t.json"],
    &["cut", "t.json", VIEW, "extra"],
    &["cut", VIEW, "t.json"],
    &["cut", "t.json", VIEW, "--"],
    &["cut", "-t.json", VIEW],
    &["cut", "t.json", "@0,0,010000:1080:1/2:256"],
    &["cut", "t.json", "0,0,10000:1080:1/2:256"],
    &["cut", "t.json", ""],
    &["cut", "http://[", VIEW],
    &["CUT", "t.json", VIEW],
    &["tiles"],
    &["tiles", "t.json", VIEW],
    &["tiles", "t.json", "t.json"],
    &["tiles", "--help"],
    &["tiles", "-"],
    &["tiles", "-x"],
    &["tiles", "--", "t.json"],
    &["tiles", "--root=t.json"],
    &["tiles", "t.json", "--help"],
    &["tiles", "http://["],
    &["meta"],
    &["meta", "t.json", VIEW],
    &["meta", "t.json", "t.json"],
    &["meta", "--", "t.json"],
    &["meta", "t.json", "--help"],
    &["meta", "http://["],
    &["Meta", "t.json"],
    &["--help"],
    &["help"],
    &["stream", "t.json", "s.txt", "--budget", "0"],
];

/// Compares what words are with what they are to be.
fn check<R: AllocGlobal + Abort>(rt: &R, words: &[&str], wanted: Wanted) -> Result<(), Fail> {
    match (read_words(rt.alloc(), words), wanted) {
        (Ok(Command::Cut { root, view }), Wanted::Cut(address)) => {
            assert_eq!(rt; root.text().as_str(), address);
            check_view(rt, view)
        }
        (Ok(Command::Tiles { root }), Wanted::Tiles(address)) => {
            assert_eq!(rt; root.text().as_str(), address);
            Ok(())
        }
        (Ok(Command::Meta { root }), Wanted::Meta(address)) => {
            assert_eq!(rt; root.text().as_str(), address);
            Ok(())
        }
        (Err(cause), Wanted::Nothing) => {
            assert_eq!(rt; cause, WordsError::NotACommand);
            Ok(())
        }
        _ => {
            assert!(rt; false, "another answer");
            Ok(())
        }
    }
}

fn check_view<R: AllocGlobal + Abort>(rt: &R, view: View) -> Result<(), Fail> {
    let text = view_text(rt.alloc(), &view)?;
    assert_eq!(rt; text.as_str(), VIEW);
    Ok(())
}

#[test]
fn cuts(rt: HostRuntime) -> Result<(), Fail> {
    for row in CUTS.iter() {
        check(&rt, row.words, row.wanted)?;
    }
    Ok(())
}

#[test]
fn tiles(rt: HostRuntime) -> Result<(), Fail> {
    for row in TILES.iter() {
        check(&rt, row.words, row.wanted)?;
    }
    Ok(())
}

#[test]
fn metas(rt: HostRuntime) -> Result<(), Fail> {
    for row in METAS.iter() {
        check(&rt, row.words, row.wanted)?;
    }
    Ok(())
}

#[test]
fn no_commands(rt: HostRuntime) -> Result<(), Fail> {
    for words in NOTHING.iter() {
        check(&rt, words, Wanted::Nothing)?;
    }
    Ok(())
}

/// A root of 5,000 bytes.
#[test]
fn root_too_long(rt: HostRuntime) -> Result<(), Fail> {
    let mut root = String::new(rt.alloc());
    for _ in 0..5000 {
        root.push('a')?;
    }
    let words = ["tiles", root.as_str()];
    check(&rt, &words, Wanted::Nothing)
}

#[test]
fn printed_texts(rt: HostRuntime) -> Result<(), Fail> {
    let alloc = rt.alloc();
    let refusal = WordsError::NotACommand;
    let text = format!(in alloc; "{refusal:?}: {refusal}")?;
    assert_eq!(rt; text.as_str(), "NotACommand: not a command");
    let memory = WordsError::OutOfMemory;
    let text = format!(in alloc; "{memory:?}: {memory}")?;
    assert_eq!(rt; text.as_str(), "OutOfMemory: out of memory");
    Ok(())
}
