//! A frame, which has to be given back.

ghost use Rattle.std.specs.Prelude.{◌≡◌};

use crate::shown::ShownList;
use error_test::View;
use std::marker::Model;

/// What a viewer was given for a view, of which the contents stay in memory until the frame is
/// given back. So a frame isn't `Drop`: whoever has one hands it on, and the one who takes it back
/// spends it. There is no copy of a frame, since its contents are kept once for each that is out.
#[derive(Debug)]
pub struct Frame {
    id: u64,
    viewer: u8,
    view: View,
    shown: ShownList,
}

impl Model for Frame {
    ghost use Rattle.frame_pins.specs.Frames.{FrameParts};

    ghost Value = { FrameParts };

    ghost view = { λ frame. record {
      id = frame.id;
      viewer = frame.viewer;
      view = frame.view;
      shown = frame.shown;
    } };
}

impl Frame {
    /// The frame of this number that shows a viewer, by its number, these contents for a view.
    /// Takes no memory.
    pub fn make(id: u64, viewer: u8, view: View, shown: ShownList) -> Frame
        ensures id { result.id ≡ id }
        ensures viewer { result.viewer ≡ viewer }
        ensures view { result.view ≡ view }
        ensures shown { result.shown ≡ shown }
    {
        Frame {
            id,
            viewer,
            view,
            shown,
        }
    }

    /// The frame's number. The first that is given has the number 1.
    pub fn id(&self) -> u64
        ensures { result ≡ self.now.id }
    {
        self.id
    }

    /// The number of the viewer, 0 to 7.
    pub fn viewer(&self) -> u8
        ensures { result ≡ self.now.viewer }
    {
        self.viewer
    }

    /// The view that the frame is for.
    pub fn view(&self) -> &View
        ensures { result.now ≡ self.now.view }
    {
        &self.view
    }

    /// The contents that are shown, in the order of the cut.
    pub fn shown(&self) -> &ShownList
        ensures { result.now ≡ self.now.shown }
    {
        &self.shown
    }

    /// Ends the frame, and gives what it showed. Takes no memory.
    pub fn spend(self) -> ShownList
        ensures { result ≡ self.shown }
    {
        let Frame {
            id: _,
            viewer: _,
            view: _,
            shown,
        } = self;
        shown
    }
}
