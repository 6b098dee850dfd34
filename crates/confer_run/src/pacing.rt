//! The pace of a conference. Sleeps are counted and not slept.

use crate::running::pace;
use cb_threads::Pace;
use std::io;
use std::process::Abort;
use std::sync::Wait;
use std::sync::atomic::{AtomicU64, Ordering};
use std::test::*;
use std::time::{Clock, Duration};

/// A clock whose sleeps of a millisecond are counted.
#[derive(Drop)]
struct Counted<'a, R: Wait + Clock> {
    rt: &'a R,
    sleeps: AtomicU64,
}

impl<'a, R: Wait + Clock> Wait for Counted<'a, R> {}

impl<'a, R: Wait + Clock> Clock for Counted<'a, R> {
    fn monotonic(&self) -> io::Result<Duration> {
        self.rt.monotonic()
    }

    fn since_1970(&self) -> io::Result<Duration> {
        self.rt.since_1970()
    }

    fn sleep(&self, duration: Duration) {
        if duration == Duration::from_millis(1) {
            self.sleeps.fetch_add(1, Ordering::SeqCst);
        }
    }
}

#[test]
fn ten_ticks_are_ten_milliseconds_apart(rt: HostRuntime) {
    let clock = Counted {
        rt: &rt,
        sleeps: AtomicU64::new(0),
    };
    let mut pace = pace();
    for _tick in 0..10u32 {
        assert!(&rt; pace.wait(&clock).is_ok());
    }
    assert_eq!(&rt; clock.sleeps.load(Ordering::SeqCst), 10);
}
