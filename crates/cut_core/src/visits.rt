//! How many nodes a view visits.

ghost use Rattle.std.specs.Prelude.{◌≡◌, IfOk, length};
ghost use Rattle.cut_core.specs.Visits.{visits};
ghost use Rattle.cut_core.specs.WholeWalk.{WalksWhole};

use crate::error::CutError;
use crate::holdings::Holdings;
use crate::walk::walk_whole;
use error_test::View;
use expanded_tree::TileTree;
use std::alloc::Global;
use tile_types::Text;

/// Holdings without a content.
#[derive(Drop)]
struct NothingHeld;

impl Holdings for NothingHeld {
    ghost use Rattle.std.specs.Prelude.{false};

    ghost holdings = { λ _. record { resident = λ _. false; absent = λ _. false } };

    fn resident(&self, _address: &Text) -> bool {
        false
    }

    fn absent(&self, _address: &Text) -> bool {
        false
    }
}

/// How many nodes the view visits: the root and the children of each visited tile that wants them,
/// without those that it doesn't see.
///
/// Errors: `TooLarge` where they are more than 65,536, or `OutOfMemory`.
pub fn visited<T: TileTree>(alloc: Global, tree: &mut T, view: &View) -> Result<u32, CutError>
    ensures count { IfOk result (λ n. n ≡ length (visits view.now (T.standing tree.old).tree)) }
    ensures basis { T.basis tree.new ≡ T.basis tree.old }
    ensures walk { WalksWhole result view.now (T.standing tree.old) (T.standing tree.new) }
{
    let found = walk_whole(alloc, tree, &NothingHeld, view)?;
    Ok(found.visits.len() as u32)
}
