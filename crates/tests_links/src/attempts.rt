//! The times of attempts that fail.

ghost use Rattle.std.specs.Prelude.{◌≡◌};

use cb_peers::{Attempts, LONGEST_PAUSE};
use std::test::*;

#[test]
fn pauses_grow_up_to_a_second(rt: HostRuntime) {
    let mut attempts = Attempts::none_made();
    assert!(&rt; attempts.is_due(0));
    let mut now = 5_000;
    for pause in [10, 20, 40, 80, 160, 320, 640, 1_000, 1_000] {
        attempts.fail(now);
        assert_eq!(&rt; attempts.due_in(now), pause);
        now += pause;
        assert!(&rt; !attempts.is_due(now - 1) && attempts.is_due(now));
    }
    assert_eq!(&rt; LONGEST_PAUSE, 1_000);
}
