//! What holds of every legal journal. Each function does nothing: its contract is the law.

ghost use Rattle.std.specs.Prelude.{◌≡◌, ◌≤◌, ◌↔◌, ◌++◌, ◌∷◌, [], ◌&&◌, ℕ, Bool, true, false, not};
ghost use Rattle.std.specs.Prelude.{List, Some, IsTrue, All, map, is_none, option_map, find};
ghost use Rattle.std.specs.List.{flat_map, list_all, IsDistinct};
ghost use Rattle.std.specs.List.Sorted.{IsStrictlyIncreasing};
ghost use Rattle.tile_types.specs.declared.key.Key.{Key};
ghost use Rattle.tile_types.specs.declared.order.Order.{Order};
ghost use Rattle.tile_types.specs.Keys.{same_key};
ghost use Rattle.load_queue.specs.Queues.{shown_wants};
ghost use Rattle.source_port.specs.Library.{Library};
ghost use Rattle.error_test.specs.Views.{ViewParts};
ghost use Rattle.cut_core.specs.Cut.{cut, ideal, is_empty};
ghost use Rattle.cut_core.specs.Laws.{HasIdeal, IsLoaded};
ghost use Rattle.doc_store.specs.Docs.{is_content, is_unread, tileset_key};
ghost use Rattle.doc_store.specs.Store.{IsDocumentKind, IsFull, Stored};
ghost use Rattle.tree_expansion.specs.Growth.{RootGrown};
ghost use Rattle.tree_expansion.specs.Seen.{LeaveNodes, culled_waits};
ghost use Rattle.tree_expansion.specs.Whole.{AgreesWith, full, whole_docs};
ghost use Rattle.content_digest.specs.Facts.{facts_of};
ghost use Rattle.tile_cache.specs.Residents as cache;
ghost use Rattle.tile_cache.specs.Room as cache_room;
ghost use Rattle.frame_pins.specs.Frames.{FrameParts};
ghost use Rattle.frame_text.specs.Lines.{lines_of};
ghost use Rattle.engine_state.specs.declared.entry.Entry.{Entry};
ghost use Rattle.engine_state.specs.declared.entry.Entry.TheVariants as entry;
ghost use Rattle.engine_state.specs.State.{State, docs};
ghost use Rattle.engine_state.specs.Views.{same_view};
ghost use Rattle.engine_state.specs.Frames.{cut_lines, frame_lines, has_address, holdings, tree};
ghost use Rattle.engine_state.specs.Loading.{flies, queued, takeable, want};
ghost use Rattle.engine_state.specs.Room.{bytes_held, bytes_in, evicted_by, has_room, moved_up};
ghost use Rattle.engine_state.specs.Room.{without};
ghost use Rattle.engine_state.specs.Allowed.{allowed, is_opening};
ghost use Rattle.engine_state.specs.After.{after};
ghost use Rattle.engine_state.specs.Journal.{after_all, first_illegal, fullness, legal, replay};
ghost use Rattle.engine_state.specs.Report.{line_of_shown, report, report_lines, reported};
ghost use Rattle.engine_state.specs.Report.{reported_from};
ghost use Rattle.engine_state.specs.Agreement.{Agrees, HasFacts, has_found_room};
ghost use Rattle.engine_state.specs.Laws.{AreNumbered, AreOnce, IsWithinBudget, ShownIsResident};
ghost use Rattle.engine_state.specs.Laws.{is_to_load, known};

// ---- journals

/// What comes before any entry of a legal journal is legal.
pub fn beginnings_are_legal()
    ensures { (before rest : List Entry) → IsTrue (legal (before ++ rest)) → IsTrue (legal before) }
{}

/// A journal goes on from what its beginning left: its state, whether it is legal, and its report.
pub fn journals_go_on()
    ensures state { (before rest : List Entry)
        → replay (before ++ rest) ≡ after_all (replay before) rest }
    ensures legal { (before : List Entry) (e : Entry)
        → legal (before ++ e ∷ []) ≡ (legal before && allowed (replay before) e) }
    ensures lines { (before rest : List Entry)
        → report_lines (before ++ rest) ≡ report_lines before ++ reported_from (replay before) rest }
    ensures text { (before rest : List Entry)
        → report (before ++ rest)
        ≡ report before ++ flat_map (λ line. line) (reported_from (replay before) rest) }
{}

/// A journal is legal exactly where it has no first entry that isn't allowed.
pub fn legal_has_no_first_illegal()
    ensures { (entries : List Entry) → legal entries ≡ is_none (first_illegal entries) }
{}

/// The first entry of a legal journal opens the engine, and none opens it again.
pub fn first_entry_opens()
    ensures opened { (before rest : List Entry) → IsTrue (legal (before ++ rest))
        → (replay before).opened ≡ not (is_empty before) }
    ensures once { (before : List Entry) (root bytes : List ℕ) (budget : ℕ) (order : Order)
        → IsTrue (legal (before ++ entry.Opened root bytes budget order ∷ []))
        → is_empty before ≡ true }
{}

/// An engine that was just opened may be closed: there is a legal journal for each address and
/// bytes that may open one, and after it the root document is loaded and the engine closed.
pub fn opened_may_close()
    ensures legal { (root bytes : List ℕ) (budget : ℕ) (order : Order) (pass : ℕ)
        → legal (entry.Opened root bytes budget order ∷ entry.Closed pass ∷ [])
        ≡ is_opening root bytes }
    ensures closed { (root bytes : List ℕ) (budget : ℕ) (order : Order) (pass : ℕ)
        → (replay (entry.Opened root bytes budget order ∷ entry.Closed pass ∷ [])).closed ≡ true }
    ensures loaded { (root bytes : List ℕ) (budget : ℕ) (order : Order) (pass : ℕ)
        → (replay (entry.Opened root bytes budget order ∷ entry.Closed pass ∷ [])).loaded
        ≡ record { key = tileset_key root; bytes = bytes } ∷ [] }
{}

/// No entry lowers the fullness.
pub fn fullness_never_falls()
    ensures { (before rest : List Entry) → fullness before ≤ fullness (before ++ rest) }
{}

// ---- frames

/// The lines of a frame are those of the cut of its view, over the documents then loaded and the
/// contents then resident.
pub fn frames_are_cuts()
    ensures { (before : List Entry) (view : ViewParts)
        → cut_lines (frame_lines (replay before) view)
        ≡ cut view (holdings (replay before)) (tree (replay before)) }
{}

/// A frame that has all it needs is ideal: no visited node is pending, and every content of the
/// ideal cut is resident.
pub fn frames_with_all_they_need_are_ideal()
    ensures { (before : List Entry) (view : ViewParts) → IsLoaded view (tree (replay before))
        → HasIdeal view (holdings (replay before)) (tree (replay before))
        → cut_lines (frame_lines (replay before) view)
        ≡ ideal view (holdings (replay before)) (tree (replay before)) }
{}

/// At each moment of a legal journal each line of each held frame names a resident, with its length
/// and its digest.
pub fn shown_stays_pinned()
    ensures { (before rest : List Entry) → IsTrue (legal (before ++ rest))
        → ShownIsResident (replay before) }
{}

/// At each moment of a legal journal the numbers of the held frames rise, none is above that of the
/// last frame given, and there are at most 64.
pub fn held_frames_are_numbered()
    ensures { (before rest : List Entry) → IsTrue (legal (before ++ rest))
        → AreNumbered (replay before) }
{}

/// At each moment of a legal journal there is at most one latest view of each viewer, and they stand
/// by rising viewer.
pub fn views_are_numbered()
    ensures { (before rest : List Entry) → IsTrue (legal (before ++ rest))
        → IsStrictlyIncreasing (map (λ seen. seen.viewer) (replay before).views) }
{}

/// A frame that shows the contents of its lines is printed as it is reported.
pub fn frames_are_printed_as_reported()
    ensures { (s : State) (frame : FrameParts) (pass : ℕ) (settled : Bool)
        → map line_of_shown frame.shown ≡ frame_lines s frame.view
        → lines_of frame ≡ reported s (entry.Looked pass frame.id frame.viewer frame.view settled) }
{}

/// Views are the same exactly where they are equal.
pub fn same_views_are_equal()
    ensures { (a b : ViewParts) → IsTrue (same_view a b) ↔ (a ≡ b) }
{}

// ---- residents

/// At each moment of a legal journal the bytes of the residents are within the budget.
pub fn bytes_stay_within_budget()
    ensures { (before rest : List Entry) → IsTrue (legal (before ++ rest))
        → IsWithinBudget (replay before) }
{}

/// At each moment of a legal journal no address is resident twice, and no resident is absent.
pub fn residents_are_there_once()
    ensures once { (before rest : List Entry) → IsTrue (legal (before ++ rest))
        → AreOnce (replay before).residents }
    ensures present { (before rest : List Entry) → IsTrue (legal (before ++ rest))
        → (address : List ℕ) → has_address (replay before).residents address ≡ true
        → (holdings (replay before)).absent address ≡ false }
{
    tree_expansion::laws::pending_nodes_wait();
}

/// The room rule over what is known of the residents is that of a cache of their contents.
pub fn room_is_the_caches()
    ensures bytes { (rs : List cache.Resident) → bytes_in (map known rs) ≡ cache.bytes_in rs }
    ensures held { (used : List ℕ → Bool) (rs : List cache.Resident)
        → bytes_held used (map known rs) ≡ cache_room.bytes_held used rs }
    ensures evicted { (used : List ℕ → Bool) (budget size : ℕ) (rs : List cache.Resident)
        → evicted_by used budget (map known rs) size
        ≡ cache_room.evicted_by used budget rs size }
    ensures moved { (rs : List cache.Resident) (address : List ℕ)
        → moved_up (map known rs) address ≡ map known (cache.moved_up rs address) }
    ensures without { (out : List (List ℕ)) (rs : List cache.Resident)
        → without out (map known rs) ≡ map known (cache.without out rs) }
    ensures address { (rs : List cache.Resident) (address : List ℕ)
        → has_address (map known rs) address ≡ cache.has_address rs address }
    ensures found { (rs : List cache.Resident) (address : List ℕ)
        → option_map (λ r. r.facts)
        (find (λ r. cache.same_text r.address address) (map known rs))
        ≡ option_map facts_of (cache.content_at rs address) }
{}

// ---- what is loaded

/// What is wanted is to be loaded, and no key is wanted twice.
pub fn wants_are_to_load()
    ensures to_load { (s : State) → IsTrue (list_all (λ w. is_to_load s w.key) (want s)) }
    ensures once { (s : State) → IsDistinct same_key (map (λ w. w.key) (want s)) }
{
    tree_expansion::laws::pending_nodes_wait();
}

/// A queue of all that is wanted, which hides what may not be taken, shows what may be.
pub fn queue_shows_what_is_takeable()
    ensures { (s : State) → shown_wants (map (queued s) (want s)) ≡ takeable s }
{}

/// At each moment of a legal journal what is being fetched is to be loaded, and no key is fetched
/// twice.
pub fn what_flies_is_to_load()
    ensures to_load { (before rest : List Entry) → IsTrue (legal (before ++ rest))
        → (pass : ℕ) (key : Key) → flies (replay before) pass key ≡ true
        → IsTrue (is_to_load (replay before) key) }
    ensures once { (before rest : List Entry) → IsTrue (legal (before ++ rest))
        → IsDistinct same_key (map (λ f. f.key) (replay before).flying) }
{
    tree_expansion::laws::pending_nodes_wait();
}

/// Of what is to be loaded a content is neither resident nor absent, and a document may be added to
/// a store, or marked as absent there.
pub fn what_is_to_load_is_missing()
    ensures resident { (s : State) (key : Key) → IsTrue (is_to_load s key) → IsTrue (is_content key)
        → has_address s.residents key.address ≡ false }
    ensures absent { (s : State) (key : Key) → IsTrue (is_to_load s key) → IsTrue (is_content key)
        → (holdings s).absent key.address ≡ false }
    ensures unread { (s : State) (key : Key) → IsTrue (is_to_load s key) → is_content key ≡ false
        → IsTrue (is_unread (docs s) key) }
    ensures document { (s : State) (key : Key) → IsTrue (is_to_load s key)
        → is_content key ≡ false → IsDocumentKind key.kind }
{
    tree_expansion::laws::pending_nodes_wait();
}

/// There is room for a document exactly where a store isn't full for it.
pub fn room_for_documents_is_the_stores()
    ensures { (store : Stored) (more : ℕ) → (has_room store.loaded more ≡ false) ↔ IsFull store more }
{}

// ---- libraries

/// Where a journal agrees with a library and every document found room, what is loaded is the
/// library's, and what is absent the library lacks: the tree is the library's whole tree but for
/// nodes that are pending.
pub fn documents_are_the_librarys()
    ensures docs { (library : Library) (before : List Entry) → Agrees (Some library) before
        → IsTrue (list_all has_found_room before) → AgreesWith library (docs (replay before)) }
    ensures tree { (library : Library) (before : List Entry) → Agrees (Some library) before
        → IsTrue (list_all has_found_room before)
        → RootGrown (whole_docs library) (tree (replay before)) (full library (replay before).root) }
{
    tree_expansion::laws::tree_is_the_librarys_but_for_pending_nodes();
}

/// Then a frame of a view that visits no pending node is the cut of the view over the library's
/// whole tree. The premise on what waits out of sight is that of `cut_is_the_librarys`.
pub fn frames_are_the_librarys_cuts()
    ensures { (library : Library) (before : List Entry) → Agrees (Some library) before
        → IsTrue (list_all has_found_room before) → (view : ViewParts)
        → IsLoaded view (tree (replay before))
        → LeaveNodes (whole_docs library) (culled_waits view (tree (replay before)))
        → cut_lines (frame_lines (replay before) view)
        ≡ cut view (holdings (replay before)) (full library (replay before).root) }
{
    documents_are_the_librarys();
    frames_are_cuts();
    tree_expansion::laws::cut_is_the_librarys();
}

/// Where a journal agrees with a library, the lines of a frame have the lengths and the digests of
/// the library's contents.
pub fn shown_contents_are_the_librarys()
    ensures { (library : Library) (before : List Entry) → Agrees (Some library) before
        → (view : ViewParts)
        → All (λ line. HasFacts (Some library) line.address line.facts)
        (frame_lines (replay before) view) }
{}
