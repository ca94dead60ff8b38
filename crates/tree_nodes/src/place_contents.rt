//! The contents of implicit tiles (OGC 22-025r4, "Implicit Tiling").

ghost use Rattle.std.specs.Prelude.{◌≡◌, ◌<◌, ◌++◌, OnOk, ◌∷◌, [], length, option_to_list};
ghost use Rattle.implicit_walk.specs.Places.{IsPlace};
ghost use Rattle.implicit_walk.specs.Presences.{IsOfRoot, content_in};
ghost use Rattle.tree_expansion.specs.Expansion.{external_of, own_of};
ghost use Rattle.tree_nodes.specs.Fronts.{IsFront};
ghost use Rattle.tree_nodes.specs.PlaceContents.{contents_in};

use crate::bits::content_in;
use implicit_walk::{ImplicitRoot, Place};
use std::alloc::{AllocError, Global};
use subtree_binary::Subtree;
use tile_types::Text;
use tile_uri::{Address, is_external};

/// Adds the addresses of the contents of the tile at a place, which is in this subtree: those of
/// external tilesets to a list of their own.
pub(crate) fn push_contents(
    alloc: Global,
    root: &ImplicitRoot,
    subtree: &Subtree,
    at: Place,
    contents: &mut Vec<Text>,
    external: &mut Vec<Address>,
) -> Result<(), AllocError>
    requires place { IsPlace root.now.part at }
    requires subtree { IsOfRoot root.now.part subtree.now }
    ensures contents { OnOk result (contents.new.items
        ≡ contents.old.items ++ own_of (contents_in root.now subtree.now at)) }
    ensures external { OnOk result (external.new.items
        ≡ external.old.items ++ external_of (contents_in root.now subtree.now at)) }
    ensures front { IsFront contents.old.items contents.new.items }
    ensures front_external { IsFront external.old.items external.new.items }
{
    for which in 0..root.part().contents().len() as u32 {
        push_content(alloc, root, subtree, at, which, contents, external)?;
    }
    Ok(())
}

/// Adds the address of one content, if it has one.
fn push_content(
    alloc: Global,
    root: &ImplicitRoot,
    subtree: &Subtree,
    at: Place,
    which: u32,
    contents: &mut Vec<Text>,
    external: &mut Vec<Address>,
) -> Result<(), AllocError>
    requires place { IsPlace root.now.part at }
    requires subtree { IsOfRoot root.now.part subtree.now }
    requires which { which < length root.now.part.contents }
    ensures contents { OnOk result (contents.new.items ≡ contents.old.items
        ++ own_of (option_to_list (content_in root.now subtree.now at which))) }
    ensures external { OnOk result (external.new.items ≡ external.old.items
        ++ external_of (option_to_list (content_in root.now subtree.now at which))) }
    ensures front { IsFront contents.old.items contents.new.items }
    ensures front_external { IsFront external.old.items external.new.items }
{
    match content_in(alloc, root, subtree, at, which)? {
        None => Ok(()),
        Some(address) => push_address(address, contents, external),
    }
}

/// Adds an address to the list that it belongs to.
fn push_address(
    address: Address,
    contents: &mut Vec<Text>,
    external: &mut Vec<Address>,
) -> Result<(), AllocError>
    ensures contents { OnOk result
        (contents.new.items ≡ contents.old.items ++ own_of (address ∷ [])) }
    ensures external { OnOk result
        (external.new.items ≡ external.old.items ++ external_of (address ∷ [])) }
    ensures front { IsFront contents.old.items contents.new.items }
    ensures front_external { IsFront external.old.items external.new.items }
{
    if is_external(&address) {
        external.push(address)?;
    } else {
        contents.push(address.into_text())?;
    }
    Ok(())
}
