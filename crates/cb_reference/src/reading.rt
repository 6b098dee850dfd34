//! The frames that a member reads.

ghost use Rattle.std.specs.Prelude.{◌≡◌, IfOk};
ghost use Rattle.cb_frames.specs.Fields.{fields_of};
ghost use Rattle.cb_frames.specs.Laws.{IsBytes};
ghost use Rattle.cb_frames.specs.Reading.{Gives};
ghost use Rattle.cb_frames.specs.Text.{IsText, KeepsRules, text_of};
ghost use Rattle.cb_history.specs.Read.{frame_read};
ghost use Rattle.cb_reference.specs.Reading.{read_fields};

use crate::casts::CastRead;
use bytes::Bytes;
use cb_frames::{Frame, FrameFault, Help, Request, Status, Unit, decode, one_text};
use cb_times::NoMemory;
use std::alloc::Global;

/// A frame that was read.
#[derive(Drop)]
pub enum FrameRead {
    Cast(CastRead),
    Status(Status),
    Request(Request),
    Help(Help),
}

/// The frame of the bytes, or their first fault. A fault is answered without memory.
pub fn read(alloc: Global, bytes: &Bytes) -> Result<FrameRead, FrameFault>
    ensures text { IfOk result (λ frame. IsText (read_fields frame) bytes.now) }
    ensures exact { Gives read_fields result (frame_read bytes.now) }
    ensures bytes { IsBytes bytes.now }
{
    one_text();
    match decode(alloc, bytes) {
        Ok(frame) => Ok(as_read(frame, bytes)?),
        Err(fault) => Err(fault),
    }
}

/// A cast frame carries one message or several, and keeps the bytes that it was read from.
fn as_read(frame: Frame, bytes: &Bytes) -> Result<FrameRead, NoMemory>
    requires rules { KeepsRules (fields_of frame) }
    requires text { bytes.now ≡ text_of (fields_of frame) }
    ensures { IfOk result (λ read. read_fields read ≡ fields_of frame) }
{
    Ok(match frame {
        Frame::Cast(cast) => FrameRead::Cast(CastRead::of(Unit::One(cast), bytes.clone()?)),
        Frame::Burst(burst) => FrameRead::Cast(CastRead::of(Unit::Many(burst), bytes.clone()?)),
        Frame::Status(status) => FrameRead::Status(status),
        Frame::Request(request) => FrameRead::Request(request),
        Frame::Help(help) => FrameRead::Help(help),
    })
}
