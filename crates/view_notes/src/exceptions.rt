//! Why the laws have their premises: small trees at which a law doesn't hold without one, whatever
//! the view is. Each function does nothing: its contract is the example.

ghost use Rattle.std.specs.Prelude.{◌≡◌, ◌∷◌, [], Some, false, map, true};
ghost use Rattle.error_test.specs.Views.{ViewParts};
ghost use Rattle.cut_core.specs.Cut.{is_ready};
ghost use Rattle.cut_core.specs.Visits.{content_key};
ghost use Rattle.view_notes.specs.Examples.{above, absent_too, first, lower_tile, nothing_held};
ghost use Rattle.view_notes.specs.Examples.{resident_at, second, waiting, waiting_for_first};
ghost use Rattle.view_notes.specs.Views.{wishes};

/// A resident content that becomes absent can end that a node is ready. So what becomes absent was
/// missing.
#[tactic(auto, unfolding(expanded_tree::specs::Facts::culls, expanded_tree::specs::Facts::may_want))]
pub fn absent_resident_unreadies()
    ensures before { (view : ViewParts)
        → is_ready view (resident_at first) (above waiting) ≡ true }
    ensures after { (view : ViewParts)
        → is_ready view (absent_too first) (above waiting) ≡ false }
{}

/// Where a child's content comes before its parent's, the parent's isn't wanted any more. So a tile
/// may leave a content that is still missing.
#[tactic(auto, unfolding(expanded_tree::specs::Facts::culls, expanded_tree::specs::Facts::may_want))]
pub fn child_before_parent_drops_both()
    ensures before { (view : ViewParts)
        → map (λ w. w.key) (wishes view nothing_held (Some (above lower_tile)))
        ≡ content_key first ∷ content_key second ∷ [] }
    ensures after { (view : ViewParts)
        → wishes view (resident_at second) (Some (above lower_tile)) ≡ [] }
{}

/// A node that would wait for a content's key would wish for it still. So no node may wait for it.
#[tactic(auto, unfolding(expanded_tree::specs::Facts::culls, expanded_tree::specs::Facts::may_want))]
pub fn pending_for_content_stays()
    ensures { (view : ViewParts)
        → map (λ w. w.key) (wishes view (resident_at first) (Some waiting_for_first))
        ≡ content_key first ∷ [] }
{}
