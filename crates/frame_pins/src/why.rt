//! Why a look has no frame.

ghost use Rattle.std.specs.Prelude.{◌≡◌};
ghost use Rattle.frame_pins.specs.Frames.{why_name};

/// Why a look has no frame.
#[derive(Clone, Copy, Debug, PartialEq, Eq)]
pub enum Why {
    /// As many frames are held as may be: 64.
    FramesFull,
    /// The view visits more nodes than a walk may: 65,536.
    TooLarge,
}

impl Why {
    /// The word that is written of it.
    pub fn name(&self) -> &'static str
        ensures { result.now ≡ why_name self.now }
    {
        match self {
            Why::FramesFull => "FramesFull",
            Why::TooLarge => "TooLarge",
        }
    }
}
