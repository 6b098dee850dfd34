//! The frames of a call.

ghost use Rattle.std.specs.Prelude.{◌≡◌, [], ◌∷◌, None, option_to_list};
ghost use Rattle.cb_handle.specs.Frames.{frames_of, frame_head, ShowsFrame, ShowsFrames};

use crate::copies::{copy_at, copy_front};
use crate::rows::FrameHead;
use bytes::Bytes;
use cb_member::Outgoing;
use std::alloc::Global;
use std::slice;

/// The frames of a call that are to be sent. One alone, as that of a cast, takes no memory for a list.
#[derive(Drop)]
pub enum Frames {
    One(Outgoing),
    Several(Vec<Outgoing>),
}

impl Frames {
    /// The frame of a cast, to all others.
    pub fn of_cast(bytes: Bytes) -> Frames
        ensures { frames_of result ≡ record { to = None; bytes = bytes } ∷ [] }
    {
        Frames::One(Outgoing { to: None, bytes })
    }

    /// The frames of a call that casts nothing. A list without frames stays where it is.
    #[inline(always)]
    pub fn replace(&mut self, frames: Vec<Outgoing>)
        ensures { frames_of self.new ≡ frames.items }
    {
        if !(frames.is_empty() && self.as_slice().is_empty()) {
            *self = Frames::Several(frames);
        }
    }

    /// One frame, or none. This takes no memory.
    pub fn replace_by(&mut self, alloc: Global, frame: Option<Outgoing>)
        ensures { frames_of self.new ≡ option_to_list frame }
    {
        match frame {
            Some(frame) => *self = Frames::One(frame),
            None => self.clear(alloc),
        }
    }

    /// There are none.
    pub fn clear(&mut self, alloc: Global)
        ensures { frames_of self.new ≡ [] }
    {
        if !self.as_slice().is_empty() {
            *self = Frames::Several(Vec::new(alloc));
        }
    }

    pub fn as_slice(&self) -> &[Outgoing]
        ensures { result.now ≡ frames_of self.now }
    {
        match self {
            Frames::One(frame) => slice::from_ref(frame),
            Frames::Several(frames) => frames.as_slice(),
        }
    }
}

pub fn head_of(frame: &Outgoing) -> FrameHead
    ensures { result ≡ frame_head frame.now }
{
    FrameHead {
        to_all: frame.to.is_none(),
        to: frame.to.unwrap_or(0),
        length: frame.bytes.len(),
    }
}

/// Shows a frame: its head, and its bytes as far as they fit.
pub fn show_frame(frame: &Outgoing, head: &mut FrameHead, bytes: &mut [u8])
    ensures { ShowsFrame frame.now head.new bytes.old bytes.new }
{
    *head = head_of(frame);
    copy_front(bytes, frame.bytes.as_slice());
}

/// Shows the first frames, as many as fit, and tells how many.
pub fn show_frames(frames: &[Outgoing], heads: &mut [FrameHead], bytes: &mut [u8]) -> usize
    ensures { ShowsFrames frames.now heads.old heads.new bytes.old bytes.new result }
{
    let mut end = 0;
    for count in 0..frames.len() {
        let frame = &frames[count];
        if count == heads.len() {
            return count;
        }
        if bytes.len() - end < frame.bytes.len() {
            return count;
        }
        heads[count] = head_of(frame);
        end = copy_at(bytes, end, frame.bytes.as_slice());
    }
    frames.len()
}
