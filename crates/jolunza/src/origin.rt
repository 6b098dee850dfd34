//! From whom a frame is.

ghost use Rattle.std.specs.Prelude.{◌≡◌, IfErr, IfOk, MatchResult};
ghost use Rattle.cb_frames.specs.Fields.{fields_of};
ghost use Rattle.cb_frames.specs.declared.fault.FrameFault.{FrameFault as Fault};
ghost use Rattle.jolunza.specs.Codes.{frame_code};
ghost use Rattle.jolunza.specs.Senders.{ComesFrom, RefusesToRead, origin_of};
ghost use Rattle.jolunza.specs.declared.code.TheConstants.{DONE};

use crate::code::{self, DONE};
use bytes::Bytes;
use cb_frames::{Frame, FrameFault, decode};
use std::alloc::Global;

/// The group of a frame, and which of its members sends it.
#[derive(Clone, Copy, Debug, PartialEq, Eq)]
pub struct Origin {
    pub group: u32,
    pub member: u32,
}

impl Origin {
    /// That of the frame whose text the bytes are, or the first fault of the bytes. `NoMemory` says nothing of the bytes.
    #[tactic(auto, using(crate::proofs::Senders::refuses_so))]
    pub fn read(alloc: Global, bytes: &[u8]) -> Result<Origin, FrameFault>
        ensures told { IfOk result (ComesFrom bytes.now) }
        ensures refused { IfErr result (RefusesToRead bytes.now) }
    {
        let Ok(bytes) = Bytes::copy_from_slice(alloc, bytes) else {
            return Err(FrameFault::NoMemory);
        };
        match decode(alloc, &bytes) {
            Ok(frame) => Ok(Origin::of(&frame)),
            Err(fault) => Err(fault),
        }
    }

    fn of(frame: &Frame) -> Origin
        ensures { result ≡ origin_of (fields_of frame.now) }
    {
        match frame {
            Frame::Cast(cast) => Origin {
                group: cast.group,
                member: cast.sender,
            },
            Frame::Burst(burst) => Origin {
                group: burst.group,
                member: burst.sender,
            },
            Frame::Status(status) => Origin {
                group: status.group,
                member: status.sender,
            },
            Frame::Request(request) => Origin {
                group: request.group,
                member: request.requester,
            },
            Frame::Help(help) => Origin {
                group: help.group,
                member: help.requester,
            },
        }
    }
}

/// Fills in from whom a frame is, where the bytes are one.
pub fn tell_origin(answer: Result<Origin, FrameFault>, group: &mut u32, member: &mut u32) -> u32
    ensures { MatchResult answer
        (λ told. (result ≡ DONE) × (group.new ≡ told.group) × (member.new ≡ told.member))
        (λ fault. (result ≡ frame_code fault) × (group.new ≡ group.old)
        × (member.new ≡ member.old)) }
{
    match answer {
        Ok(told) => {
            *group = told.group;
            *member = told.member;
            DONE
        }
        Err(fault) => code::of_frame(fault),
    }
}
