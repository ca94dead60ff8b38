//! The command `cut`.

ghost use Rattle.std.specs.Prelude.{◌≡◌, IfOk, Option, map};
ghost use Rattle.cut_core.specs.Cut.{ideal};
ghost use Rattle.error_test.specs.Views.{ViewParts};
ghost use Rattle.expanded_tree.specs.Tree.{Tree};
ghost use Rattle.tree_nodes.specs.Trees.{stored_tree};
ghost use Rattle.stream_cli.specs.Awaited.{nothing_absent};
ghost use Rattle.stream_cli.specs.Looks.{EndsLook, Looks, OfCut};
ghost use Rattle.stream_cli.specs.Runs.{IsSeen};
ghost use Rattle.stream_cli.specs.Sides.{out_run, source_run};

use crate::cause::Cause;
use crate::everything::EverythingThere;
use crate::fetching::fetch_contents;
use crate::look::Look;
use crate::printing::cause_of;
use crate::report::print_cut;
use cut_core::{CutList, Sight, ideal_or_want};
use doc_store::DocStore;
use error_test::View;
use source_port::{Sink, Source};
use std::alloc::{AllocError, Global};
use tile_arena::Arena;
use tile_types::{Key, WantList};

/// Fetches the contents of the ideal cut of a view and prints it, or says which documents the
/// visited nodes wait for. One walk tells which, and makes the nodes that it visits alone.
pub(crate) fn look<S: Source, W: Sink>(
    alloc: Global,
    view: &View,
    store: DocStore,
    source: &mut S,
    out: &mut W,
) -> Look
    ensures looks { Looks (OfCut view.now (stored_tree store)) store
        (source_run S.library S.faults S.fetches source.old source.new)
        (out_run W.written W.faults W.puts out.old out.new) (out.new ≡ out.old) result }
    ensures library { S.library source.new ≡ S.library source.old }
{
    let Ok(mut arena) = Arena::new(alloc, store) else {
        return Look::Ended(Cause::Memory);
    };
    match ideal_or_want(alloc, &mut arena, &EverythingThere, view) {
        Ok(Sight::Lines(lines)) => {
            // No content is fetched while the documents and the nodes take memory.
            drop(arena);
            Look::Ended(print_ideal(alloc, &lines, source, out))
        }
        Ok(Sight::Awaits(wants)) => match keys_of(alloc, &wants) {
            Ok(keys) => Look::Awaits {
                keys,
                store: arena.into_store(),
            },
            Err(_) => Look::Ended(Cause::Memory),
        },
        Err(error) => Look::Ended(Cause::of_walk(error)),
    }
}

/// The keys of wants, in order.
fn keys_of(alloc: Global, wants: &WantList) -> Result<Vec<Key>, AllocError>
    ensures { IfOk result (λ keys. keys.items ≡ map (λ want. want.key) wants.now) }
{
    let mut keys = Vec::with_capacity(alloc, wants.len())?;
    for want in wants.as_slice() {
        keys.push(want.key.copy(alloc)?)?;
    }
    Ok(keys)
}

/// Fetches the contents of the ideal cut of a view that visits no node that waits for a document,
/// and prints it. Which tiles it shows doesn't depend on which contents are absent: so one walk with
/// every content there finds them, and the lines of absent contents are left out.
fn print_ideal<S: Source, W: Sink>(
    alloc: Global,
    lines: &CutList,
    source: &mut S,
    out: &mut W,
) -> Cause
    ensures ends { (view : ViewParts) (root : Option Tree)
        → lines.now ≡ ideal view nothing_absent root → IsSeen view root
        → EndsLook (OfCut view root)
        (source_run S.library S.faults S.fetches source.old source.new) 0
        (out_run W.written W.faults W.puts out.old out.new) (out.new ≡ out.old) result }
    ensures library { S.library source.new ≡ S.library source.old }
{
    match fetch_contents(alloc, lines.as_slice(), source) {
        Ok(contents) => cause_of(print_cut(alloc, lines.as_slice(), &contents, out), out),
        Err(cause) => cause,
    }
}
