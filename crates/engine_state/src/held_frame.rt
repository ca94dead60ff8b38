//! Frames that aren't given back yet.

use crate::frame_line::FrameLineList;

/// A frame that isn't given back yet: its number, its viewer's, and its lines.
#[derive(Debug, Drop)]
pub struct HeldFrame {
    pub id: u64,
    pub viewer: u8,
    pub lines: FrameLineList,
}
