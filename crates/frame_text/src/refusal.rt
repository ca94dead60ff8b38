//! The line of a look that has no frame.

ghost use Rattle.std.specs.Prelude.{◌≡◌, IfOk, IsOk};
ghost use Rattle.frame_text.specs.Lines.{refused_line};

use frame_pins::Why;
use itoa::Buffer;
use std::alloc::{AllocError, Global};
use tile_types::Text;

/// The line `refused VIEWER WHY` with its line feed. It is short enough to take no memory.
#[tactic(auto, unfolding(crate::specs::Lines::refused_line))]
pub fn refused_text(alloc: Global, viewer: u8, why: Why) -> Result<Text, AllocError>
    ensures value { IfOk result (λ line. line ≡ refused_line viewer why) }
    ensures succeeds { IsOk result }
{
    let mut number = Buffer::new();
    let line = Text::of_two(alloc, "refused ", number.format(viewer))?;
    let line = line.followed_by(alloc, " ")?;
    let line = line.followed_by(alloc, why.name())?;
    line.followed_by(alloc, "\n")
}
