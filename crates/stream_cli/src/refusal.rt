//! What is printed of a document or a schema that isn't read.

ghost use Rattle.std.specs.Prelude.{◌≡◌, IfOk, string_bytes};
ghost use Rattle.stream_cli.specs.Causes as causes;

use meta_schema::SchemaError;
use std::alloc::{AllocError, Global};
use tileset_schema::{DocumentError, Field};

/// The name of a cause.
fn error_name(error: DocumentError) -> &'static str
    ensures { result.now ≡ causes.error_name error }
{
    match error {
        DocumentError::NotJson => "NotJson",
        DocumentError::Shape { .. } => "Shape",
        DocumentError::MissingField { .. } => "MissingField",
        DocumentError::Version => "Version",
        DocumentError::ExtensionRequired => "ExtensionRequired",
        DocumentError::RegionVolume { .. } => "RegionVolume",
        DocumentError::NoVolume { .. } => "NoVolume",
        DocumentError::OutOfRange { .. } => "OutOfRange",
        DocumentError::NotAffine { .. } => "NotAffine",
        DocumentError::RefineWord { .. } => "RefineWord",
        DocumentError::BothContents { .. } => "BothContents",
        DocumentError::TooManyTiles => "TooManyTiles",
        DocumentError::BadAddress { .. } => "BadAddress",
        DocumentError::ImplicitLimits { .. } => "ImplicitLimits",
        DocumentError::ImplicitSphere { .. } => "ImplicitSphere",
        DocumentError::ImplicitChildren { .. } => "ImplicitChildren",
        DocumentError::OutOfMemory => "OutOfMemory",
    }
}

/// The name of a part of a document.
fn field_name(field: Field) -> &'static str
    ensures { result.now ≡ causes.field_name field }
{
    match field {
        Field::Top => "Top",
        Field::Asset => "Asset",
        Field::Version => "Version",
        Field::ExtensionsRequired => "ExtensionsRequired",
        Field::GeometricError => "GeometricError",
        Field::Root => "Root",
        Field::Tile => "Tile",
        Field::BoundingVolume => "BoundingVolume",
        Field::ViewerRequestVolume => "ViewerRequestVolume",
        Field::Refine => "Refine",
        Field::Transform => "Transform",
        Field::Content => "Content",
        Field::Uri => "Uri",
        Field::ImplicitTiling => "ImplicitTiling",
        Field::Scheme => "Scheme",
        Field::SubtreeLevels => "SubtreeLevels",
        Field::AvailableLevels => "AvailableLevels",
        Field::Subtrees => "Subtrees",
        Field::Children => "Children",
    }
}

/// The part that a cause speaks of.
fn field_of(error: DocumentError) -> Option<Field>
    ensures { result ≡ causes.field_of error }
{
    match error {
        DocumentError::Shape { field, .. } => Some(field),
        DocumentError::MissingField { field, .. } => Some(field),
        DocumentError::OutOfRange { field, .. } => Some(field),
        _ => None,
    }
}

/// The number of the tile that a cause speaks of.
fn tile_of(error: DocumentError) -> Option<u32>
    ensures { result ≡ causes.tile_of error }
{
    match error {
        DocumentError::Shape { tile, .. }
        | DocumentError::MissingField { tile, .. }
        | DocumentError::RegionVolume { tile }
        | DocumentError::NoVolume { tile }
        | DocumentError::OutOfRange { tile, .. }
        | DocumentError::NotAffine { tile }
        | DocumentError::RefineWord { tile }
        | DocumentError::BothContents { tile }
        | DocumentError::BadAddress { tile }
        | DocumentError::ImplicitLimits { tile }
        | DocumentError::ImplicitSphere { tile }
        | DocumentError::ImplicitChildren { tile } => Some(tile),
        DocumentError::NotJson
        | DocumentError::Version
        | DocumentError::ExtensionRequired
        | DocumentError::TooManyTiles
        | DocumentError::OutOfMemory => None,
    }
}

/// `CAUSE FIELD TILE`, with `-` for what the cause doesn't speak of.
pub fn error_text(alloc: Global, error: DocumentError) -> Result<String, AllocError>
    ensures { IfOk result (λ text. string_bytes text ≡ causes.error_text error) }
{
    let name = error_name(error);
    let field = match field_of(error) {
        Some(field) => field_name(field),
        None => "-",
    };
    match tile_of(error) {
        Some(tile) => format!(in alloc; "{name} {field} {tile}"),
        None => format!(in alloc; "{name} {field} -"),
    }
}

/// The name of the cause of a schema that isn't read.
pub fn schema_error_name(error: SchemaError) -> &'static str
    ensures { result.now ≡ causes.schema_error_name error }
{
    match error {
        SchemaError::Shape { .. } => "Shape",
        SchemaError::UnknownEnum => "UnknownEnum",
        SchemaError::OutOfRange => "OutOfRange",
        SchemaError::OutOfMemory => "OutOfMemory",
    }
}
