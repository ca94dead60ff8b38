//! What holds of every view as contents come and go. Each function does nothing: its contract is
//! the law.

ghost use Rattle.std.specs.Prelude.{All, ◌≡◌, ℕ, Bool, List, Option, bytes_eq, false, map, true};
ghost use Rattle.std.specs.List.{flat_map, list_any};
ghost use Rattle.tile_types.specs.declared.key.Key.{Key};
ghost use Rattle.tile_types.specs.declared.want.Want.{Want};
ghost use Rattle.error_test.specs.Views.{ViewParts};
ghost use Rattle.expanded_tree.specs.Tree.{Tree};
ghost use Rattle.cut_core.specs.Cut.{Holdings, is_ready};
ghost use Rattle.cut_core.specs.Visits.{VisitsTooMany, content_key, keeps_own};
ghost use Rattle.cut_core.specs.Wants.{each_once, is_missing, wanted};
ghost use Rattle.view_notes.specs.declared.change.Change.{Change};
ghost use Rattle.view_notes.specs.declared.note.Note.{Note};
ghost use Rattle.view_notes.specs.Agreement.{Agree, SameFixed};
ghost use Rattle.view_notes.specs.AllViews.{EachKeepsNone, EachNoneWaits, each_leaves_none};
ghost use Rattle.view_notes.specs.Asking.{AreNotesOfEach};
ghost use Rattle.view_notes.specs.Changes.{BecomesAbsent, BecomesResident, Evicts, GoesEach};
ghost use Rattle.view_notes.specs.Changes.{Grows, SameHoldings, Settles};
ghost use Rattle.view_notes.specs.Follows.{AreNotesOf, Noted, nothing_noted};
ghost use Rattle.view_notes.specs.Keeping.{any_keeps};
ghost use Rattle.view_notes.specs.Leaving.{Includes, KeepsNone, NoneWaits, lacks, leaves_none};
ghost use Rattle.view_notes.specs.Notes.{root_notes};
ghost use Rattle.view_notes.specs.Users.{AreLacking, AreUsers, FollowsChange, Happens};
ghost use Rattle.view_notes.specs.Users.{keeps_at, no_lacking_leaves};
ghost use Rattle.view_notes.specs.Views.{EachLoses, EachTakeable, RespectsKeys, kept, names, noted};
ghost use Rattle.view_notes.specs.Views.{other_wants, takeable, wanted_by, wishes};

/// What is ready stays ready while contents become resident or absent.
pub fn ready_stays()
    ensures { (view : ViewParts) (old new : Holdings) (t : Tree) → Grows old new
        → is_ready view old t ≡ true → is_ready view new t ≡ true }
{}

/// A missing content that has become resident, or absent, has settled.
pub fn contents_settle()
    ensures resident { (address : List ℕ) (old new : Holdings) → BecomesResident address old new
        → Settles address old new }
    ensures absent { (address : List ℕ) (old new : Holdings) → BecomesAbsent address old new
        → Settles address old new }
{}

/// Where no tile that isn't kept any more has a content that is still missing, a content that has
/// settled is all that the view's wishes lose.
pub fn wishes_lose_it_alone()
    ensures { (address : List ℕ) (awaited : List ℕ → Bool) (view : ViewParts)
        (old new : Holdings) (root : Option Tree) → Settles address old new
        → Includes awaited (is_missing new) → leaves_none awaited view old new root ≡ true
        → NoneWaits (content_key address) view root
        → wishes view new root ≡ other_wants (content_key address) (wishes view old root) }
{}

/// Where no tile that isn't kept any more has a content that is still missing and may be taken,
/// the same wishes may be taken, though more than the content that has settled may be lost.
pub fn takeable_wishes_stay()
    ensures { (address : List ℕ) (may : Key → Bool) (awaited : List ℕ → Bool)
        (view : ViewParts) (old new : Holdings) (root : Option Tree) → Settles address old new
        → may (content_key address) ≡ false → Includes awaited (lacks may new)
        → leaves_none awaited view old new root ≡ true
        → takeable may (wishes view new root) ≡ takeable may (wishes view old root) }
{}

/// What one view wants is its wishes, each key once.
pub fn wanted_is_wishes_once()
    ensures { (view : ViewParts) (holdings : Holdings) (root : Option Tree)
        → wanted view holdings root ≡ each_once (wishes view holdings root) }
{}

/// Each key once, and what may be taken: it doesn't matter which comes first.
pub fn once_then_takeable()
    ensures { (may : Key → Bool) (wants : List Want) → RespectsKeys may
        → each_once (takeable may wants) ≡ takeable may (each_once wants) }
{}

/// Where the wishes of each view lose one content alone, so does what all of them want.
pub fn wanted_loses_it_alone()
    ensures { (address : List ℕ) (views : List ViewParts) (old new : Holdings)
        (root : Option Tree) → EachLoses address old new root views
        → wanted_by views new root
        ≡ other_wants (content_key address) (wanted_by views old root) }
{}

/// Where of the wishes of each view the same may be taken, so it is with what all of them want.
pub fn takeable_stays()
    ensures { (may : Key → Bool) (views : List ViewParts) (old new : Holdings)
        (root : Option Tree) → RespectsKeys may → EachTakeable may old new root views
        → takeable may (wanted_by views new root) ≡ takeable may (wanted_by views old root) }
{}

/// Where nothing goes that the view keeps, each noted node is as ready as before.
pub fn ready_survives_eviction()
    ensures { (out : List ℕ → Bool) (view : ViewParts) (old new : Holdings) (root : Option Tree)
        → Evicts out old new → KeepsNone out view old root
        → map (is_ready view new) (noted view root) ≡ map (is_ready view old) (noted view root) }
{}

/// Where nothing goes that the view keeps, the same noted nodes keep their own contents.
pub fn keeping_survives_eviction()
    ensures { (out : List ℕ → Bool) (view : ViewParts) (old new : Holdings) (root : Option Tree)
        → Evicts out old new → KeepsNone out view old root
        → map (keeps_own view new) (noted view root)
        ≡ map (keeps_own view old) (noted view root) }
{}

/// Where nothing goes that the view keeps, it keeps the same.
pub fn kept_survives_eviction()
    ensures { (out : List ℕ → Bool) (view : ViewParts) (old new : Holdings) (root : Option Tree)
        → Evicts out old new → KeepsNone out view old root
        → kept view new root ≡ kept view old root }
{}

/// Where nothing goes that the view keeps, it wishes for the same.
pub fn wishes_survive_eviction()
    ensures { (out : List ℕ → Bool) (view : ViewParts) (old new : Holdings) (root : Option Tree)
        → Evicts out old new → KeepsNone out view old root
        → wishes view new root ≡ wishes view old root }
{}

/// The notes of a tree agree with one another.
pub fn notes_agree()
    ensures { (view : ViewParts) (holdings : Holdings) (root : Option Tree)
        → Agree (root_notes view holdings root) }
{}

/// Notes that agree with one another are determined by what they say beside readiness.
pub fn notes_are_determined()
    ensures { (ns ms : List Note) → SameFixed ns ms → Agree ns → Agree ms → ms ≡ ns }
{}

/// Notes that were those of a tree, and followed a content that has changed, are those of the tree.
pub fn notes_follow()
    ensures { (change : Change) (address users : List ℕ) (view : ViewParts) (old new : Holdings)
        (root : Option Tree) (ns ms : List Note) → ns ≡ root_notes view old root
        → AreUsers address users 0 (names view root) → Happens change address old new
        → FollowsChange change users ns ms → ms ≡ root_notes view new root }
{}

/// The notes tell whether the view keeps a content that isn't absent.
pub fn notes_tell_what_is_kept()
    ensures { (address users : List ℕ) (view : ViewParts) (holdings : Holdings)
        (root : Option Tree) (ns : List Note) → ns ≡ root_notes view holdings root
        → AreUsers address users 0 (names view root) → holdings.absent address ≡ false
        → list_any (keeps_at ns) users ≡ list_any (bytes_eq address) (kept view holdings root) }
{}

/// The notes tell whether a tile that isn't kept any more has one of these contents.
pub fn notes_tell_what_leaves()
    ensures { (lacking : ℕ → Bool) (contents : List ℕ → Bool) (view : ViewParts)
        (old new : Holdings) (root : Option Tree) (ns ms : List Note)
        → ns ≡ root_notes view old root → ms ≡ root_notes view new root
        → AreLacking lacking contents 0 (names view root)
        → no_lacking_leaves lacking 0 ns ms ≡ leaves_none contents view old new root }
{}

/// A view that visits more nodes than it may has the notes of no node.
pub fn too_many_are_not_noted()
    ensures { (view : ViewParts) (holdings : Holdings) (root : Option Tree)
        → VisitsTooMany view root → AreNotesOf nothing_noted view holdings root }
{}

/// The notes of several views tell whether one of them keeps a content that isn't absent.
pub fn notes_tell_what_any_keeps()
    ensures { (address : List ℕ) (ns : List Noted) (views : List ViewParts) (holdings : Holdings)
        (root : Option Tree) → AreNotesOfEach ns views holdings root
        → holdings.absent address ≡ false
        → any_keeps ns address
        ≡ list_any (bytes_eq address) (flat_map (λ view. kept view holdings root) views) }
{}

/// Notes, and what is wanted, depend on which contents are resident and which are absent, and on
/// nothing else of the holdings.
pub fn same_holdings_have_same_notes()
    ensures notes { (n : Noted) (view : ViewParts) (old new : Holdings) (root : Option Tree)
        → AreNotesOf n view old root → SameHoldings old new → AreNotesOf n view new root }
    ensures each { (ns : List Noted) (views : List ViewParts) (old new : Holdings)
        (root : Option Tree) → AreNotesOfEach ns views old root → SameHoldings old new
        → AreNotesOfEach ns views new root }
    ensures wanted { (views : List ViewParts) (old new : Holdings) (root : Option Tree)
        → SameHoldings old new → wanted_by views new root ≡ wanted_by views old root }
{}

/// Where no view's tile that isn't kept any more has a content that is still missing, what the
/// views want loses a content that has settled, and nothing else. No visited node may wait for its
/// key: a pending node of an expanded tree waits for a document's.
pub fn wanted_loses_it_where_none_leaves()
    ensures { (address : List ℕ) (awaited : List ℕ → Bool) (views : List ViewParts)
        (old new : Holdings) (root : Option Tree) → Settles address old new
        → Includes awaited (is_missing new)
        → each_leaves_none awaited views old new root ≡ true
        → EachNoneWaits (content_key address) views root
        → wanted_by views new root
        ≡ other_wants (content_key address) (wanted_by views old root) }
{}

/// Where no view's tile that isn't kept any more has a content that is still missing and may be
/// taken, of what the views want the same may be taken.
pub fn takeable_stays_where_none_leaves()
    ensures { (address : List ℕ) (may : Key → Bool) (awaited : List ℕ → Bool)
        (views : List ViewParts) (old new : Holdings) (root : Option Tree)
        → Settles address old new → may (content_key address) ≡ false → RespectsKeys may
        → Includes awaited (lacks may new) → each_leaves_none awaited views old new root ≡ true
        → takeable may (wanted_by views new root) ≡ takeable may (wanted_by views old root) }
{}

/// Where nothing goes that one of the views keeps, they want the same.
pub fn unkept_evictions_change_nothing()
    ensures views { (out : List ℕ → Bool) (views : List ViewParts) (old new : Holdings)
        (root : Option Tree) → Evicts out old new → EachKeepsNone out views old root
        → wanted_by views new root ≡ wanted_by views old root }

    // By the notes.
    ensures notes { (addresses : List (List ℕ)) (ns : List Noted) (views : List ViewParts)
        (old new : Holdings) (root : Option Tree) → AreNotesOfEach ns views old root
        → GoesEach addresses old new → All (λ address. any_keeps ns address ≡ false) addresses
        → wanted_by views new root ≡ wanted_by views old root }
{}
