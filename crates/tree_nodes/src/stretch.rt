//! Parts of lists.

ghost use Rattle.std.specs.Prelude.{◌≡◌, ◌≤◌, ◌+◌, IfOk, length};

use std::alloc::AllocError;

/// Where some values of a list stand side by side.
#[derive(Clone, Copy, Debug)]
pub struct Stretch {
    pub first: u32,
    pub count: u32,
}

/// The number of what comes next in a list that has so many. No memory holds more than 2^32.
pub(crate) fn next_number(length: usize) -> Result<u32, AllocError>
    ensures { IfOk result (λ number. number ≡ length) }
{
    if length > u32::MAX as usize {
        return Err(AllocError);
    }
    Ok(length as u32)
}
