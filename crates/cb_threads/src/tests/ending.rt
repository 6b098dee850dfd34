//! What ends a group.

use crate::limits::{Ending, Limits, Stop};
use crate::per_worker::PerWorker;
use crate::threads::end_unless_all_run;
use std::sync::atomic::AtomicU64;
use std::test::*;

/// Whether the stop of a group of three is set, where a worker of one of them may not run.
fn ends(speaker: Option<()>, timer: Option<()>) -> bool {
    let stop = Stop::new();
    let talking = AtomicU64::new(3);
    let ending = Ending {
        limits: Limits { turns: 1 },
        stop: &stop,
        talking: Some(&talking),
    };
    let running = PerWorker {
        receiver: Some(()),
        timer,
        speaker,
        sender: Some(()),
    };
    end_unless_all_run(ending, &running);
    stop.is_set()
}

/// The others would wait for what its talker says, to their last turn.
#[test]
fn a_group_ends_where_a_worker_does_not_run(rt: HostRuntime) {
    assert!(&rt; !ends(Some(()), Some(())));
    assert!(&rt; ends(None, Some(())));
    assert!(&rt; ends(Some(()), None));
}
