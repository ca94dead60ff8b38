//! Frames of a session.

ghost use Rattle.std.specs.Prelude.{◌≡◌};

use frame_pins::Frame;

/// A frame that a session holds. Unlike a frame alone it may be dropped, and is spent then: that a
/// session gives each of its frames back is for its contracts to say.
pub(crate) struct OwnFrame {
    pub(crate) frame: Frame,
}

impl OwnFrame {
    /// The frame, for which somebody else answers from now on.
    pub(crate) fn into_frame(self) -> Frame
        ensures { result ≡ self.frame }
    {
        let OwnFrame { frame } = self;
        frame
    }
}

impl Drop for OwnFrame {
    fn drop(self) {
        let OwnFrame { frame } = self;
        frame.spend();
    }
}
