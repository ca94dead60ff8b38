//! The contents that a view keeps.

ghost use Rattle.std.specs.Prelude.{◌≡◌, ◌++◌, [], All, IfOk, IsTrue};
ghost use Rattle.std.specs.Prelude.{OnOk, map, if◌then◌else◌};
ghost use Rattle.std.specs.List.{flat_map};
ghost use Rattle.cut_core.specs.Cut.{own_contents};
ghost use Rattle.cut_core.specs.Laws.{KeepsShown};
ghost use Rattle.cut_core.specs.Noted.{IsNoteValid};
ghost use Rattle.cut_core.specs.Visits.{content_key, kept_keys};
ghost use Rattle.cut_core.specs.WholeWalk.{WalksWhole};

use crate::content_key::key_of_content;
use crate::error::CutError;
use crate::findings::Visit;
use crate::holdings::Holdings;
use crate::walk::walk_whole;
use error_test::View;
use expanded_tree::{Node, TileTree};
use std::alloc::{AllocError, Global};
use tile_types::KeyList;

/// Adds the keys of a tile's own contents.
fn push_own<T: TileTree, H: Holdings>(
    alloc: Global,
    tree: &T,
    holdings: &H,
    node: Node,
    keys: &mut KeyList,
) -> Result<(), AllocError>
    requires { IsTrue ((T.standing tree.now).is_valid node) }
    ensures { let t = (T.standing tree.now).node_tree node in
        OnOk result (keys.new ≡ keys.old ++ map content_key
        (own_contents (H.holdings holdings.now) t)) }
{
    for i in 0..tree.content_count(node) {
        let address = tree.content(node, i);
        if !holdings.absent(address) {
            let key = key_of_content(alloc, address)?;
            keys.push(key)?;
        }
    }
    Ok(())
}

/// The keys of what the noted nodes keep.
fn keys_kept<T: TileTree, H: Holdings>(
    alloc: Global,
    tree: &T,
    holdings: &H,
    visits: &[Visit],
) -> Result<KeyList, AllocError>
    requires { All (λ v. IsNoteValid (T.standing tree.now) v) visits.now }
    ensures { let s = T.standing tree.now in
        IfOk result (λ keys. keys ≡ map content_key (flat_map
        (λ v. if v.kept then own_contents (H.holdings holdings.now) (s.node_tree v.node) else [])
        visits.now)) }
{
    let mut keys = KeyList::new(alloc);
    for visit in visits {
        if visit.kept {
            push_own(alloc, tree, holdings, visit.node, &mut keys)?;
        }
    }
    Ok(keys)
}

/// The keys of the contents that the view keeps, in preorder: the own contents of the visited
/// tiles, but for those that are replaced by their children, all of which are ready.
///
/// Errors: `TooLarge` where the view visits more than 65,536 nodes, or `OutOfMemory`.
pub fn keep<T: TileTree, H: Holdings>(
    alloc: Global,
    tree: &mut T,
    holdings: &H,
    view: &View,
) -> Result<KeyList, CutError>
    ensures keys { let root = (T.standing tree.old).tree in
        IfOk result (λ keys. keys ≡ kept_keys view.now (H.holdings holdings.now) root) }
    ensures basis { T.basis tree.new ≡ T.basis tree.old }
    ensures walk { WalksWhole result view.now (T.standing tree.old) (T.standing tree.new) }

    // No content that the cut shows is left out.
    ensures shown { let root = (T.standing tree.old).tree in
        IfOk result (λ keys. KeepsShown view.now (H.holdings holdings.now) root keys) }
{
    let found = walk_whole(alloc, tree, holdings, view)?;
    Ok(keys_kept(alloc, tree, holdings, &found.visits)?)
}
