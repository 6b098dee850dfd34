//! A law that links rely on, as the contract of a function that does nothing.

ghost use Rattle.cb_frames.specs.StreamLaws.{LongestFrame};

/// No frame has more than `LONGEST_FRAME` bytes, so that there is room for each in a datagram.
pub fn each_frame_fits()
    ensures { LongestFrame }
{}
