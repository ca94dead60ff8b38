//! The commands, a file for each: which documents one waits for, and what it prints.

ghost use Rattle.std.specs.Prelude.{◌≡◌};
ghost use Rattle.stream_cli.specs.Looks.{Looks, OfCommand};
ghost use Rattle.stream_cli.specs.Loading.{root_of};
ghost use Rattle.stream_cli.specs.Sides.{out_run, source_run};

mod cut;
mod meta;
mod pending;
mod tiles;

use crate::look::Look;
use doc_store::DocStore;
use source_port::{Sink, Source};
use std::alloc::Global;
use tile_uri::Address;
use words_table::Command;

/// The address of the root document that a command names.
pub fn root_of(command: &Command) -> &Address
    ensures { result.now ≡ root_of command.now }
{
    match command {
        Command::Cut { root, .. } => root,
        Command::Tiles { root } => root,
        Command::Meta { root } => root,
    }
}

/// Looks at the tree of the loaded documents: prints what a command asks for of it, or gives the
/// documents back and says which further ones that waits for. What is printed of contents is fetched
/// first.
pub fn look<S: Source, W: Sink>(
    alloc: Global,
    command: &Command,
    store: DocStore,
    source: &mut S,
    out: &mut W,
) -> Look
    ensures looks { Looks (OfCommand command.now store) store
        (source_run S.library S.faults S.fetches source.old source.new)
        (out_run W.written W.faults W.puts out.old out.new) (out.new ≡ out.old) result }
    ensures library { S.library source.new ≡ S.library source.old }
{
    match command {
        Command::Cut { view, .. } => cut::look(alloc, view, store, source, out),
        Command::Tiles { .. } => tiles::look(alloc, store, out),
        Command::Meta { .. } => meta::look(alloc, store, out),
    }
}
