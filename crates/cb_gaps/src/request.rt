//! The frames that ask for casts: of the member that made them, or of a third that has delivered them.
ghost use Rattle.std.specs.Prelude.{◌≡◌, ◌<◌, length, IfOk, OnErr, option_map};
ghost use Rattle.cb_frames.specs.Fields.{fields_of};
ghost use Rattle.cb_gaps.specs.Request.{first_ranges, request_for, help_for};

use cb_frames::{Frame, Help, MOST_RANGES, Range, Request};
use cb_times::NoMemory;
use std::alloc::Global;

/// The request by which member `requester` of the group asks member `asked` for its casts of these numbers.
///
/// It has the first 32 of the ranges: what is left is asked for later. `None` where there are none, which takes no memory.
/// Members are numbered from 0 to 63, and the ranges are as `Reorder::missing` gives them; neither is looked at here.
pub fn request_of(
    alloc: Global,
    group: u32,
    requester: u32,
    asked: u32,
    ranges: &[Range],
) -> Result<Option<Frame>, NoMemory>
    ensures frame { IfOk result (λ frame.
        option_map fields_of frame ≡ request_for group requester asked ranges.now) }
    ensures memory { OnErr result (0 < length ranges.now) }
{
    let Some(ranges) = first_ranges(alloc, ranges)? else {
        return Ok(None);
    };
    Ok(Some(Frame::Request(Request {
        group,
        requester,
        asked,
        ranges,
    })))
}

/// The frame by which member `requester` of the group asks member `helper` for casts of member `sender`, of these numbers.
///
/// It has the first 32 of the ranges; `None` where there are none, which takes no memory. Members and ranges are as for
/// `request_of`.
pub fn help_of(
    alloc: Global,
    group: u32,
    requester: u32,
    helper: u32,
    sender: u32,
    ranges: &[Range],
) -> Result<Option<Frame>, NoMemory>
    ensures frame { IfOk result (λ frame.
        option_map fields_of frame ≡ help_for group requester helper sender ranges.now) }
    ensures memory { OnErr result (0 < length ranges.now) }
{
    let Some(ranges) = first_ranges(alloc, ranges)? else {
        return Ok(None);
    };
    Ok(Some(Frame::Help(Help {
        group,
        requester,
        helper,
        sender,
        ranges,
    })))
}

// As many of them as a frame may have, where there are some.
fn first_ranges(alloc: Global, ranges: &[Range]) -> Result<Option<Vec<Range>>, NoMemory>
    ensures first { IfOk result (λ first.
        option_map (λ some. some.items) first ≡ first_ranges ranges.now) }
    ensures memory { OnErr result (0 < length ranges.now) }
{
    if ranges.is_empty() {
        return Ok(None);
    }
    let first = &ranges[..MOST_RANGES.min(ranges.len())];
    Ok(Some(Vec::from_slice(alloc, first)?))
}
