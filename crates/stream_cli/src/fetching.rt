//! Fetching the contents of a cut from a source.

ghost use Rattle.std.specs.Prelude.{◌≡◌, IfErr, IfOk};
ghost use Rattle.stream_cli.specs.Contents.{addresses_in};
ghost use Rattle.stream_cli.specs.Kept.{KeepsFetched, KeepsOne};
ghost use Rattle.stream_cli.specs.Sides.{source_run};
ghost use Rattle.stream_cli.specs.Steps.{IsLoadCause};

use crate::cause::Cause;
use crate::contents::ContentMap;
use content_digest::{CONTENT_LIMIT, ContentFacts};
use cut_core::CutLine;
use source_port::Source;
use std::alloc::Global;
use tile_types::Text;

/// Fetches the contents of these lines, each address once, and keeps the length and the digest of
/// each. A content that the source hasn't, or that is too long, is absent.
pub fn fetch_contents<S: Source>(
    alloc: Global,
    lines: &[CutLine],
    source: &mut S,
) -> Result<ContentMap, Cause>
    ensures kept { IfOk result (KeepsFetched
        (source_run S.library S.faults S.fetches source.old source.new)
        (addresses_in lines.now)) }
    ensures stops { IfErr result (IsLoadCause
        (source_run S.library S.faults S.fetches source.old source.new)) }
    ensures library { S.library source.new ≡ S.library source.old }
{
    let mut contents = ContentMap::new(alloc);
    for line in lines {
        if contents.keeps(&line.address) {
            continue;
        }
        let facts = match fetch_content(alloc, &line.address, source) {
            Ok(facts) => facts,
            Err(cause) => return Err(cause),
        };
        let Ok(address) = line.address.copy(alloc) else {
            return Err(Cause::Memory);
        };
        if contents.add(address, facts).is_err() {
            return Err(Cause::Memory);
        }
    }
    Ok(contents)
}

/// The length and the digest of the content at an address, whose bytes are dropped. None where it
/// is absent.
fn fetch_content<S: Source>(
    alloc: Global,
    address: &Text,
    source: &mut S,
) -> Result<Option<ContentFacts>, Cause>
    ensures kept { IfOk result (KeepsOne
        (source_run S.library S.faults S.fetches source.old source.new) address.now) }
    ensures stops { IfErr result (IsLoadCause
        (source_run S.library S.faults S.fetches source.old source.new)) }
    ensures library { S.library source.new ≡ S.library source.old }
{
    let mut bytes = Vec::new(alloc);
    match source.fetch(alloc, address.as_str(), CONTENT_LIMIT, &mut bytes) {
        Ok(()) => Ok(Some(ContentFacts::of(bytes.as_slice()))),
        Err(error) => match Cause::of_load(error, source.faults()) {
            None => Ok(None),
            Some(cause) => Err(cause),
        },
    }
}
