//! What holds of every expanded tree. Each function does nothing: its contract is the law.

ghost use Rattle.std.specs.Prelude.{◌≡◌, ℕ, List, Option, IsTrue};
ghost use Rattle.error_test.specs.Views.{ViewParts};
ghost use Rattle.expanded_tree.specs.Tree.{Tree};
ghost use Rattle.cut_core.specs.Cut.{Holdings, cut, ideal};
ghost use Rattle.cut_core.specs.Laws.{IsLoaded};
ghost use Rattle.source_port.specs.Library.{Library};
ghost use Rattle.tile_types.specs.declared.key.Key.{Key};
ghost use Rattle.doc_store.specs.Docs.{Docs, is_unread};
ghost use Rattle.doc_store.specs.Store.{IsDocumentKind};
ghost use Rattle.tree_expansion.specs.Expansion.{expand};
ghost use Rattle.tree_expansion.specs.Growth.{Extends, RootGrown};
ghost use Rattle.tree_expansion.specs.Seen.{RootKeeps, LeaveNodes, culled_waits};
ghost use Rattle.tree_expansion.specs.Whole.{AgreesWith, IsWhole, all_root_keys, full};
ghost use Rattle.tree_expansion.specs.Whole.{is_document, whole_docs};

/// Each pending node waits for a tileset, or a subtree whose levels are within the limits, that is
/// neither loaded nor absent.
pub fn pending_nodes_wait()
    ensures unread { (docs : Docs) (root : List ℕ)
        → IsTrue (all_root_keys (is_unread docs) (expand docs root)) }
    ensures document { (docs : Docs) (root : List ℕ)
        → IsTrue (all_root_keys is_document (expand docs root)) }
    // A store takes such a key.
    ensures taken { (key : Key) → IsTrue (is_document key) → IsDocumentKind key.kind }
{}

/// Where more is known of the documents, pending nodes alone have changed.
pub fn loading_changes_pending_nodes_alone()
    ensures { (old new : Docs) → Extends old new → (root : List ℕ)
        → RootGrown new (expand old root) (expand new root) }
{}

/// Where what is loaded is the library's, the tree is the library's whole tree but for nodes that
/// are pending.
pub fn tree_is_the_librarys_but_for_pending_nodes()
    ensures { (library : Library) (docs : Docs) → AgreesWith library docs → (root : List ℕ)
        → RootGrown (whole_docs library) (expand docs root) (full library root) }
{}

/// Where what is loaded is the library's, a tree with no pending node is the library's whole tree.
pub fn whole_tree_is_the_librarys()
    ensures { (library : Library) (docs : Docs) → AgreesWith library docs → (root : List ℕ)
        → IsWhole (expand docs root) → expand docs root ≡ full library root }
{}

/// Growth that drops no child of a visited tile that wants its children changes no cut of the view,
/// where no visited node is pending.
pub fn growth_out_of_sight_changes_no_cut()
    ensures { (view : ViewParts) (new : Docs) (from to : Option Tree) (g : RootGrown new from to)
        → RootKeeps view new from to g → IsLoaded view from → (holdings : Holdings)
        → cut view holdings from ≡ cut view holdings to }
{}

/// Where what is loaded is the library's and no visited node is pending, what the view shows is
/// what it shows of the library's whole tree. Nobody loads the subtrees that children of visited
/// tiles wait for out of sight. The premise is that each of them leaves a node in the library: else
/// such a child would count as one here, and not there.
pub fn cut_is_the_librarys()
    ensures cut { (library : Library) (docs : Docs) → AgreesWith library docs
        → (root : List ℕ) (view : ViewParts) → IsLoaded view (expand docs root)
        → LeaveNodes (whole_docs library) (culled_waits view (expand docs root))
        → (holdings : Holdings)
        → cut view holdings (expand docs root) ≡ cut view holdings (full library root) }
    ensures ideal { (library : Library) (docs : Docs) → AgreesWith library docs
        → (root : List ℕ) (view : ViewParts) → IsLoaded view (expand docs root)
        → LeaveNodes (whole_docs library) (culled_waits view (expand docs root))
        → (holdings : Holdings)
        → ideal view holdings (expand docs root) ≡ ideal view holdings (full library root) }
{}
