//! Tables that are open.

ghost use Rattle.std.specs.Prelude.{◌≡◌, ◌↔◌, IfOk, IsTrue, OnErr, OnOk};
ghost use Rattle.tile_metadata.specs.Shown.{IsAt, IsTableIn, IsTableOf};

use meta_schema::Schema;
use meta_tables::{Table, TableError, tile_table};
use std::alloc::{AllocError, Global};
use subtree_binary::Subtree;
use tree_nodes::TablePlace;

/// The table for tiles of a subtree, or why it isn't read, or None where it has none.
pub(crate) type Opened<'a> = Option<Result<Table<'a>, TableError>>;

/// The table of a subtree, by the schema of a document.
#[derive(Drop)]
pub(crate) struct OpenTable<'a> {
    pub(crate) document: u32,
    pub(crate) subtree: u32,
    pub(crate) opened: Opened<'a>,
}

/// Reads the table for tiles of a subtree (OGC 22-025r4, "Property tables").
pub(crate) fn read_table<'a>(
    alloc: Global,
    schema: &'a Schema,
    subtree: &'a Subtree,
) -> Result<Opened<'a>, AllocError>
    ensures { IfOk result (IsTableOf schema.now subtree.now) }
{
    let Some(number) = tile_table(alloc, subtree)? else {
        return Ok(None);
    };
    match Table::read(alloc, schema, subtree, number) {
        Ok(table) => Ok(Some(Ok(table))),
        Err(TableError::OutOfMemory) => Err(AllocError),
        Err(cause) => Ok(Some(Err(cause))),
    }
}

/// Whether the table is that of a place.
fn is_at(current: &Option<OpenTable<'_>>, place: TablePlace) -> bool
    ensures { IsTrue result ↔ IsAt place.document place.subtree current.now }
{
    match current {
        Some(current) => current.document == place.document && current.subtree == place.subtree,
        None => false,
    }
}

/// Opens the table of a place, whose schema and subtree these are, unless it is open.
pub(crate) fn open_at<'a>(
    alloc: Global,
    schema: &'a Schema,
    subtree: &'a Subtree,
    place: TablePlace,
    current: &mut Option<OpenTable<'a>>,
) -> Result<(), AllocError>
    requires { IsAt place.document place.subtree current.old
        → IsTableIn schema.now subtree.now current.old }
    ensures at { OnOk result (IsAt place.document place.subtree current.new) }
    ensures table { OnOk result (IsTableIn schema.now subtree.now current.new) }
    ensures unchanged { OnErr result (current.new ≡ current.old) }
{
    if is_at(current, place) {
        return Ok(());
    }
    let opened = read_table(alloc, schema, subtree)?;
    *current = Some(OpenTable {
        document: place.document,
        subtree: place.subtree,
        opened,
    });
    Ok(())
}
