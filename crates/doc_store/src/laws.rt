//! What follows from the definitions.

ghost use Rattle.std.specs.Prelude.{◌≡◌, ◌<◌, ℕ, List, Some, length, slice_get};
ghost use Rattle.tile_types.specs.declared.key.Key.{Key};
ghost use Rattle.doc_store.specs.Store.{Stored, with_document};
ghost use Rattle.doc_store.specs.States.{number_in};

/// Documents keep their numbers while others are added, and a number keeps its document.
pub fn documents_keep_their_numbers()
    ensures number { (store : Stored) (added key : Key) (bytes : List ℕ) (n : ℕ)
        → number_in store key ≡ Some n
        → number_in (with_document store added bytes) key ≡ Some n }
    ensures document { (store : Stored) (added : Key) (bytes : List ℕ) (n : ℕ)
        → n < length store.loaded
        → slice_get (with_document store added bytes).loaded n ≡ slice_get store.loaded n }
{}
