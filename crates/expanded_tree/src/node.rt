//! Nodes by number, and what is known of one.

use error_test::View;
use std::marker::Model;
use tile_types::Refine;
use volumes::Volume;

/// A node of a tree, by its number there.
#[derive(Clone, Copy, Debug, PartialEq, Eq)]
pub struct Node {
    pub number: u64,
}

/// What a tree knows of a node. Each volume is within the limits of `volumes`, and the error is at
/// most 2^50 micrometres.
#[derive(Clone, Copy, Debug)]
pub struct NodeFacts {
    /// The bounding volume, in millimetres, where it is known.
    pub volume: Option<Volume>,
    /// The viewer request volume, in millimetres (OGC 22-025r4, "Viewer request volume").
    pub request: Option<Volume>,
    /// The geometric error in micrometres (OGC 22-025r4, "Geometric error").
    pub error: u64,
    /// How the node is refined (OGC 22-025r4, "Refinement").
    pub refine: Refine,
    /// Whether one of the tile's contents is an external tileset (OGC 22-025r4, "External
    /// tilesets").
    pub external: bool,
}

impl Model for NodeFacts {
    ghost use Rattle.expanded_tree.specs.Facts.{Facts, AreInRange};

    ghost Value = { Facts };

    ghost view = { λ f. record {
      volume = f.volume;
      request = f.request;
      error = f.error;
      refine = f.refine;
      external = f.external;
    } };

    ghost invariant = { λ f. AreInRange f.volume f.request f.error };

    ghost inverse = { λ f. record {
      volume = f.volume;
      request = f.request;
      error = f.error;
      refine = f.refine;
      external = f.external;
    } };
}

impl NodeFacts {
    ghost use Rattle.std.specs.Prelude.{◌≡◌};
    ghost use Rattle.expanded_tree.specs.Facts.{culls, may_want};

    /// Whether the view doesn't see the node.
    #[tactic(auto, unfolding(crate::specs::Facts::culls))]
    pub fn is_culled(&self, view: &View) -> bool
        ensures { result ≡ culls view.now self.now }
    {
        match &self.volume {
            None => false,
            Some(volume) => error_test::culled(volume, view),
        }
    }

    /// Whether a tile with these facts wants its children, if it has any.
    #[tactic(auto, unfolding(crate::specs::Facts::may_want))]
    pub fn may_want(&self, view: &View) -> bool
        ensures { result ≡ may_want view.now self.now }
    {
        if self.external {
            return true;
        }
        match &self.volume {
            None => false,
            Some(volume) => error_test::wants(volume, self.error, view),
        }
    }
}
