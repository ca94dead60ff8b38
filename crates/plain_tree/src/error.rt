//! Why a tree isn't listed.

ghost use Rattle.std.specs.Prelude.{ℕ, Option};
ghost use Rattle.tree_nodes.specs.Growth.{Refuses as RefusesNodes};
ghost use Rattle.plain_tree.specs.Refusals.{Refuses};

use tree_nodes::ListError;

/// Why a tree isn't listed.
#[derive(Clone, Copy, Debug, PartialEq, Eq)]
pub enum PlainError {
    /// The expanded tree has more than 1,048,576 nodes.
    TooLarge,
    /// There is no memory.
    OutOfMemory,
}

impl PlainError {
    /// Why a tree isn't listed whose nodes can't be added for this.
    pub(crate) fn of(error: ListError) -> PlainError
        ensures { (limit : Option ℕ) (count : ℕ) → RefusesNodes limit count error
            → Refuses limit count result }
    {
        match error {
            ListError::TooLarge => PlainError::TooLarge,
            ListError::OutOfMemory => PlainError::OutOfMemory,
        }
    }
}
