//! What follows from the definitions.

ghost use Rattle.std.specs.Prelude.{◌<◌, ◌^◌, length};
ghost use Rattle.subtree_write.specs.ReadingBack.{HasAllBits, ReadsAs};
ghost use Rattle.subtree_write.specs.Writing.{written};
ghost use Rattle.subtree_write.specs.declared.spec.SubtreeSpec.{SubtreeSpec};

/// What is written is read as the same bits, where there is a bit for each tile and each child
/// subtree, and the bytes can be held at all.
pub fn reads_back()
    ensures { (spec : SubtreeSpec) → HasAllBits spec → length (written spec) < 2 ^ 63
        → ReadsAs spec (written spec) }
{}
