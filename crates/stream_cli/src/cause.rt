//! What a run ends with.

ghost use Rattle.std.specs.Prelude.{◌≡◌, IfOk};
ghost use Rattle.stream_cli.specs.Causes.{absence_name, document_cause, fault_line, load_cause};
ghost use Rattle.stream_cli.specs.Causes.{root_cause, schemas_cause, status_of, tree_cause};
ghost use Rattle.stream_cli.specs.Causes.{walk_cause, words_cause};

use crate::refusal::{error_text, schema_error_name};
use cut_core::CutError;
use meta_schema::SchemaError;
use plain_tree::PlainError;
use source_port::FetchError;
use std::alloc::{AllocError, AllocFailed, Global};
use tile_metadata::SchemasError;
use tile_types::Text;
use tileset_schema::DocumentError;
use words_table::WordsError;

/// What a run ends with.
#[derive(Clone, Copy, Debug, PartialEq, Eq)]
pub enum Cause {
    /// All was read, and all was printed.
    Done,
    /// The words are no command.
    Words,
    /// The root document isn't read.
    Document { error: DocumentError },
    /// The schema of a document of implicit tiles isn't read.
    Schema { error: SchemaError },
    /// A fetch failed. This is how many fetches of its source failed so far.
    Source { count: u64 },
    /// A put failed. This is how many puts of its sink failed so far.
    Out { count: u64 },
    /// Memory ran out.
    Memory,
    /// The source gave no root document.
    RootAbsent { why: NotHere },
    /// The view visits more nodes than it may.
    Tiles,
    /// The tree has more nodes than are listed.
    Listing,
}

/// Why a source gave no file.
#[derive(Clone, Copy, Debug, PartialEq, Eq)]
pub enum NotHere {
    /// There is nothing at its address.
    Missing,
    /// It is longer than the limit.
    TooLong,
}

impl NotHere {
    /// The name that is printed.
    pub fn name(&self) -> &'static str
        ensures { result.now ≡ absence_name self.now }
    {
        match self {
            NotHere::Missing => "Missing",
            NotHere::TooLong => "TooLong",
        }
    }
}

impl Cause {
    /// What a run ends with whose words weren't read.
    pub fn of_words(error: WordsError) -> Cause
        ensures { result ≡ words_cause error }
    {
        match error {
            WordsError::NotACommand => Cause::Words,
            WordsError::OutOfMemory => Cause::Memory,
        }
    }

    /// What a run ends with whose root document wasn't fetched, from a source that counts so many
    /// faults.
    pub fn of_root(error: FetchError, count: u64) -> Cause
        ensures { result ≡ root_cause error count }
    {
        match error {
            FetchError::Missing => Cause::RootAbsent {
                why: NotHere::Missing,
            },
            FetchError::TooLong => Cause::RootAbsent {
                why: NotHere::TooLong,
            },
            FetchError::Failed => Cause::Source { count },
            FetchError::OutOfMemory => Cause::Memory,
        }
    }

    /// What a run ends with where a further document or a content wasn't fetched: none where it
    /// isn't there or is too long, so that it is absent.
    pub fn of_load(error: FetchError, count: u64) -> Option<Cause>
        ensures { result ≡ load_cause error count }
    {
        match error {
            FetchError::Missing => None,
            FetchError::TooLong => None,
            FetchError::Failed => Some(Cause::Source { count }),
            FetchError::OutOfMemory => Some(Cause::Memory),
        }
    }

    /// What a run ends with whose root document isn't read.
    pub fn of_document(error: DocumentError) -> Cause
        ensures { result ≡ document_cause error }
    {
        match error {
            DocumentError::OutOfMemory => Cause::Memory,
            error => Cause::Document { error },
        }
    }

    /// What a run ends with whose schemas aren't read.
    pub fn of_schemas(error: SchemasError) -> Cause
        ensures { result ≡ schemas_cause error }
    {
        match error {
            SchemasError::Refused { cause } => Cause::Schema { error: cause },
            SchemasError::OutOfMemory => Cause::Memory,
        }
    }

    /// What a run ends with whose view wasn't walked.
    pub fn of_walk(error: CutError) -> Cause
        ensures { result ≡ walk_cause error }
    {
        match error {
            CutError::TooLarge => Cause::Tiles,
            CutError::OutOfMemory => Cause::Memory,
        }
    }

    /// What a run ends with whose tree wasn't written out.
    pub fn of_tree(error: PlainError) -> Cause
        ensures { result ≡ tree_cause error }
    {
        match error {
            PlainError::TooLarge => Cause::Listing,
            PlainError::OutOfMemory => Cause::Memory,
        }
    }

    /// The exit status: 0 done, 1 words, 2 refused, 3 source, 4 sink, 7 memory, 8 absent,
    /// 9 too large.
    pub fn status(&self) -> u8
        ensures { result ≡ status_of self.now }
    {
        match self {
            Cause::Done => 0,
            Cause::Words => 1,
            Cause::Document { .. } | Cause::Schema { .. } => 2,
            Cause::Source { .. } => 3,
            Cause::Out { .. } => 4,
            Cause::Memory => 7,
            Cause::RootAbsent { .. } => 8,
            Cause::Tiles | Cause::Listing => 9,
        }
    }

    /// The line for standard error, with its line feed. A run that is done has none.
    pub fn line(&self, alloc: Global) -> Result<Text, AllocError>
        ensures { IfOk result (λ line. line ≡ fault_line self.now) }
    {
        let line = match self {
            Cause::Done => String::new(alloc),
            Cause::Words => String::from_str(alloc, "fault 1 words\n")?,
            Cause::Document { error } => {
                let text = error_text(alloc, *error)?;
                format!(in alloc; "fault 2 document {text}\n")?
            }
            Cause::Schema { error } => {
                let name = schema_error_name(*error);
                format!(in alloc; "fault 2 schema {name}\n")?
            }
            Cause::Source { count } => format!(in alloc; "fault 3 source {count}\n")?,
            Cause::Out { count } => format!(in alloc; "fault 4 out {count}\n")?,
            Cause::Memory => String::from_str(alloc, "fault 7 memory\n")?,
            Cause::RootAbsent { why } => {
                let name = why.name();
                format!(in alloc; "fault 8 root {name}\n")?
            }
            Cause::Tiles => String::from_str(alloc, "fault 9 tiles\n")?,
            Cause::Listing => String::from_str(alloc, "fault 9 listing\n")?,
        };
        Text::new(alloc, line.as_str())
    }
}

impl From<AllocError> for Cause {
    ghost use Rattle.std.specs.Prelude.{◌≡◌};
    ghost use Rattle.stream_cli.specs.declared.cause.Cause.TheVariants.{Memory};

    ghost from_gives = { λ _ cause. cause ≡ Memory };

    fn from(_: AllocError) -> Cause {
        Cause::Memory
    }
}

impl<T: Drop> From<AllocFailed<T>> for Cause {
    ghost use Rattle.std.specs.Prelude.{◌≡◌};
    ghost use Rattle.stream_cli.specs.declared.cause.Cause.TheVariants.{Memory};

    ghost from_gives = { λ _ cause. cause ≡ Memory };

    fn from(_: AllocFailed<T>) -> Cause {
        Cause::Memory
    }
}
