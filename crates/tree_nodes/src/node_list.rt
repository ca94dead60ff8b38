//! The nodes of a tree in one list.

ghost use Rattle.std.specs.Prelude.{◌≡◌, ◌≤◌, ◌<◌, ◌+◌, ◌++◌, ◌∷◌, [], IfOk, IsErrOf, MatchResult, OnOk};
ghost use Rattle.std.specs.Prelude.{length};
ghost use Rattle.volumes.specs.Limits.{error_limit};
ghost use Rattle.volumes.specs.Moves.{moved_error};
ghost use Rattle.tree_nodes.specs.Fronts.{IsFront};
ghost use Rattle.tree_nodes.specs.Nodes.{HasIdentity};
ghost use Rattle.tree_nodes.specs.Places.{map_in};
ghost use Rattle.tree_nodes.specs.Growth.{AddsNode, AddsPending, AddsPlace, AddsTile, IsBelow, IsEmptyList, IsWithin, Passes, Tells};
ghost use Rattle.tree_nodes.specs.declared.node.NodeSource.TheVariants.{Tile};

use crate::error::{ListError, NoRoom};
use crate::node::{Handed, NodeSource, TreeNode, Waiting};
use crate::place_entry::PlaceEntry;
use crate::stretch::next_number;
use crate::tables::Tables;
use fixed_geometry::Affine;
use std::alloc::{AllocError, Global};
use tileset_schema::Written;

/// Nodes of a tree, each behind its parent, and what they speak of. The children of a node stand
/// side by side, in order.
#[derive(Drop)]
pub struct NodeList {
    pub nodes: Vec<TreeNode>,
    pub tables: Tables,
}

impl NodeList {
    /// No nodes yet.
    pub fn new(alloc: Global) -> Result<NodeList, AllocError>
        ensures { IfOk result IsEmptyList }
    {
        let mut transforms = Vec::new(alloc);
        transforms.push(Affine::identity())?;
        Ok(NodeList {
            nodes: Vec::new(alloc),
            tables: Tables {
                transforms,
                waiting: Vec::new(alloc),
                tops: Vec::new(alloc),
                places: Vec::new(alloc),
                contents: Vec::new(alloc),
                external: Vec::new(alloc),
            },
        })
    }

    /// Lets all nodes go, and keeps their memory for others.
    pub fn clear(&mut self)
        requires { HasIdentity self.old }
        ensures { IsEmptyList self.new }
    {
        self.nodes.clear();
        self.tables.transforms.truncate(1);
        self.tables.waiting.clear();
        self.tables.tops.clear();
        self.tables.places.clear();
        self.tables.contents.clear();
        self.tables.external.clear();
    }

    /// Whether one node more may be listed. It takes no memory, so that too many nodes are told
    /// from want of memory.
    fn check_room(&self, limit: Option<u32>) -> Result<(), NoRoom>
        ensures { MatchResult result
            (λ _. IsWithin limit (length self.now.nodes.items + 1))
            (λ _. Passes limit (length self.now.nodes.items + 1)) }
    {
        match limit {
            None => Ok(()),
            Some(limit) => {
                if self.nodes.len() >= limit as usize {
                    return Err(NoRoom);
                }
                Ok(())
            }
        }
    }

    /// Adds a node.
    fn push(&mut self, node: TreeNode, limit: Option<u32>) -> Result<(), ListError>
        ensures { Tells limit self.old self.new result (AddsNode node self.old self.new) }
    {
        match self.check_room(limit) {
            Err(NoRoom) => return Err(ListError::TooLarge),
            Ok(()) => {}
        }
        match self.nodes.push(node) {
            Err(_) => Err(ListError::OutOfMemory),
            Ok(()) => Ok(()),
        }
    }

    /// The error of a tile that says this of itself, under the transform of this number, in
    /// micrometres.
    pub(crate) fn moved_error(&self, own: &Written, transform: u32) -> u64
        requires { transform < length self.now.tables.transforms.items }
        ensures value { result
            ≡ moved_error own.now.parts.error (map_in self.now.tables.transforms.items transform) }
        ensures within { result ≤ error_limit }
    {
        volumes::moved_error(own.error(), &self.tables.transforms[transform as usize])
    }

    /// Adds a node for a tile, which says this of itself.
    pub(crate) fn push_tile(
        &mut self,
        handed: Handed,
        source: NodeSource,
        own: &Written,
        limit: Option<u32>,
    ) -> Result<(), ListError>
        requires { handed.transform < length self.old.tables.transforms.items }
        ensures { Tells limit self.old self.new result
            (AddsTile handed source own.now.parts self.old self.new) }
    {
        let Ok(transform) = transform_below(&mut self.tables.transforms, handed.transform, own)
        else {
            return Err(ListError::OutOfMemory);
        };
        let refine = match own.refine() {
            None => handed.refine,
            Some(refine) => refine,
        };
        let node = TreeNode {
            parent: handed.parent,
            transform,
            source,
            number: handed.number,
            levels: handed.levels,
            refine,
        };
        match self.push(node, limit) {
            Err(e) => Err(e),
            Ok(()) => Ok(()),
        }
    }

    /// Adds a node for a place below an implicit root.
    pub(crate) fn push_place(
        &mut self,
        handed: Handed,
        entry: PlaceEntry,
        limit: Option<u32>,
    ) -> Result<(), ListError>
        ensures { Tells limit self.old self.new result (AddsPlace handed entry self.old self.new) }
    {
        let Ok(place) = next_number(self.tables.places.len()) else {
            return Err(ListError::OutOfMemory);
        };
        let node = TreeNode {
            parent: handed.parent,
            transform: handed.transform,
            source: NodeSource::Implicit { place },
            number: handed.number,
            levels: handed.levels,
            refine: handed.refine,
        };
        let Ok(()) = self.tables.places.push(entry) else {
            return Err(ListError::OutOfMemory);
        };
        match self.push(node, limit) {
            Err(e) => Err(e),
            Ok(()) => Ok(()),
        }
    }

    /// Adds a node for a tileset that isn't loaded, held by a tile of this error.
    pub(crate) fn push_pending(
        &mut self,
        handed: Handed,
        waiting: Waiting,
        limit: Option<u32>,
    ) -> Result<(), ListError>
        ensures { Tells limit self.old self.new result (AddsPending handed waiting self.old self.new) }
    {
        let Ok(number) = next_number(self.tables.waiting.len()) else {
            return Err(ListError::OutOfMemory);
        };
        let node = TreeNode {
            parent: handed.parent,
            transform: handed.transform,
            source: NodeSource::Pending { waiting: number },
            number: handed.number,
            levels: handed.levels,
            refine: handed.refine,
        };
        let Ok(()) = self.tables.waiting.push(waiting) else {
            return Err(ListError::OutOfMemory);
        };
        match self.push(node, limit) {
            Err(e) => Err(e),
            Ok(()) => Ok(()),
        }
    }
}

/// The number of the computed transform of a tile below one of that number.
pub(crate) fn transform_below(
    transforms: &mut Vec<Affine>,
    above: u32,
    own: &Written,
) -> Result<u32, AllocError>
    requires { above < length transforms.old.items }
    ensures below { IfOk result (λ number. IsBelow transforms.old.items transforms.new.items above
        own.now.parts.transform number) }
    ensures front { IsFront transforms.old.items transforms.new.items }
{
    let Some(own) = own.transform() else {
        // A map is within its limits, and such a map the identity leaves as it is.
        let _ = transforms[above as usize].max_scale();
        return Ok(above);
    };
    let number = next_number(transforms.len())?;
    let computed = transforms[above as usize].then(own);
    transforms.push(computed)?;
    Ok(number)
}
