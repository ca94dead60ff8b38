//! The top object of a document (OGC 22-025r4, "Tileset JSON").

ghost use Rattle.std.specs.Prelude.{◌≡◌, IfOk, option_map, codes};
ghost use Rattle.std.specs.List.{list_all};
ghost use Rattle.json_decimal.specs.Handles.{json_of, items_left, members_left};
ghost use Rattle.json_decimal.specs.JsonValue.{last_of};
ghost use Rattle.json_decimal.specs.Parts.{members_of};
ghost use Rattle.json_decimal.specs.View.{value_of};
ghost use Rattle.tileset_schema.specs.Causes.{or_cause, seen_by};
ghost use Rattle.tileset_schema.specs.Documents as documents;
ghost use Rattle.tileset_schema.specs.Seen.{value_seen};
ghost use Rattle.tileset_schema.specs.declared.error.DocumentError.TheVariants.{MissingField, Shape};

use crate::error::DocumentError;
use crate::field::Field;
use crate::geometric_errors::geometric_error;
use crate::members::last;
use json_decimal::{Json, JsonItems, JsonMembers, JsonRef};
use std::alloc::{AllocError, Global};

/// A part of the top object isn't there.
fn missing(field: Field) -> DocumentError
    ensures { result ≡ MissingField field 0 }
{
    DocumentError::MissingField { field, tile: 0 }
}

/// A part of the top object has another form than it has to have.
fn shape(field: Field) -> DocumentError
    ensures { result ≡ Shape field 0 }
{
    DocumentError::Shape { field, tile: 0 }
}

/// The version of the asset, 1.0 or 1.1 (OGC 22-025r4, "Asset").
fn check_asset(value: Option<JsonRef<'_>>) -> Result<(), DocumentError>
    ensures { result ≡ documents.asset (value_seen value.entry) }
{
    let Some(value) = value else {
        return Err(missing(Field::Asset));
    };
    let Some(own) = value.members() else {
        return Err(shape(Field::Asset));
    };
    let Some(version) = last(own, "version") else {
        return Err(missing(Field::Version));
    };
    let Some(version) = version.text() else {
        return Err(shape(Field::Version));
    };
    if version.is("1.0") || version.is("1.1") {
        return Ok(());
    }
    Err(DocumentError::Version)
}

fn is_known(value: JsonRef<'_>) -> bool
    ensures { result ≡ documents.is_known (json_of value.entry) }
{
    match value.text() {
        Some(word) => word.is("3DTILES_content_gltf"),
        None => false,
    }
}

fn are_texts(items: JsonItems<'_>) -> bool
    ensures { result ≡ list_all documents.is_text (items_left items.entry) }
{
    let mut rest = items;
    while let Some(value) = rest.next() {
        if value.text().is_none() {
            return false;
        }
    }
    true
}

fn are_known(items: JsonItems<'_>) -> bool
    ensures { result ≡ list_all documents.is_known (items_left items.entry) }
{
    let mut rest = items;
    while let Some(value) = rest.next() {
        if !is_known(value) {
            return false;
        }
    }
    true
}

/// The extensions that are required are known: a list of texts, before any is compared.
fn check_extensions(value: JsonRef<'_>) -> Result<(), DocumentError>
    ensures { result ≡ documents.extensions (json_of value.entry) }
{
    let Some(items) = value.items() else {
        return Err(shape(Field::ExtensionsRequired));
    };
    if !are_texts(items) {
        return Err(shape(Field::ExtensionsRequired));
    }
    if !are_known(items) {
        return Err(DocumentError::ExtensionRequired);
    }
    Ok(())
}

fn check_required(value: Option<JsonRef<'_>>) -> Result<(), DocumentError>
    ensures { result ≡ documents.required (value_seen value.entry) }
{
    match value {
        None => Ok(()),
        Some(value) => check_extensions(value),
    }
}

/// The members of the top object.
pub fn top_members(value: JsonRef<'_>) -> Result<JsonMembers<'_>, DocumentError>
    ensures { seen_by members_left result
        ≡ or_cause (Shape Field.Top 0) (members_of (json_of value.entry)) }
{
    match value.members() {
        Some(members) => Ok(members),
        None => Err(shape(Field::Top)),
    }
}

/// The value of the root tile, where all that stands before it is as it has to be.
pub fn root_of(members: JsonMembers<'_>) -> Result<JsonRef<'_>, DocumentError>
    ensures { seen_by json_of result ≡ documents.root (members_left members.entry) }
{
    check_asset(last(members, "asset"))?;
    check_required(last(members, "extensionsRequired"))?;
    geometric_error(last(members, "geometricError"), 0)?;
    match last(members, "root") {
        Some(root) => Ok(root),
        None => Err(missing(Field::Root)),
    }
}

/// The metadata schema, as a value of its own.
pub fn schema_of(alloc: Global, members: JsonMembers<'_>) -> Result<Option<Json>, AllocError>
    ensures { IfOk result (λ schema.
        option_map value_of schema ≡ last_of (codes "schema") (members_left members.entry)) }
{
    match last(members, "schema") {
        Some(schema) => Ok(Some(schema.to_json(alloc)?)),
        None => Ok(None),
    }
}
