//! The times between two ticks.

use cb_node::{BadBounds, Bounds, Pacing};
use std::process::Abort;
use std::time::Duration;

#[test]
fn bounds_that_are_none_are_refused(rt: HostRuntime) {
    let millis = |ms: u64| Duration::from_millis(ms);
    let table = [
        (Duration::ZERO, millis(5), false),
        (millis(1), millis(1), true),
        (millis(6), millis(5), false),
        (millis(1), millis(3_600_000), true),
        (millis(1), millis(3_600_001), false),
    ];
    for (quick, slow, good) in table {
        let made = Bounds::new(quick, slow);
        assert!(&rt; made.is_ok() == good);
        assert!(&rt; good || made == Err(BadBounds));
    }
}

/// A tick of a member that has so many entries after it, and how many milliseconds it is then to the
/// next one, where there are so many.
fn tick(pacing: &mut Pacing, after: usize, then: usize) -> u128 {
    let now = Some(Duration::from_secs(1));
    pacing.try_at(now);
    let _helps = pacing.count(after);
    pacing.rest(now, then).as_millis()
}

fn begun(rt: &impl Abort) -> Pacing {
    let bounds = Bounds::new(Duration::from_millis(20), Duration::from_secs(1));
    Pacing::new(bounds.expect(rt, "bounds"))
}

#[test]
fn each_tick_without_news_doubles_the_time_to_the_next_up_to_the_slow_one(rt: HostRuntime) {
    let mut pacing = begun(&rt);
    for millis in [20u128, 40, 80, 160, 320, 640, 1_000, 1_000] {
        let time = tick(&mut pacing, 7, 7);
        assert!(&rt; time == millis);
    }
}

/// Something is entered after the third tick, and by the fourth and the sixth.
#[test]
fn news_sets_the_time_back_to_the_quick_one(rt: HostRuntime) {
    let mut pacing = begun(&rt);
    let table = [
        (1, 1, 20u128),
        (1, 1, 40),
        (1, 2, 20),
        (3, 3, 20),
        (3, 3, 40),
        (4, 4, 20),
    ];
    for (after, then, millis) in table {
        let time = tick(&mut pacing, after, then);
        assert!(&rt; time == millis);
    }
}

/// The first, the second and the fourth tick bring news, and those after it none. They are asked after
/// the fourth, and from the eighth on after each.
#[test]
fn third_members_are_asked_ever_again(rt: HostRuntime) {
    let mut pacing = begun(&rt);
    let table = [
        (1, false),
        (2, false),
        (2, false),
        (3, true),
        (3, false),
        (3, false),
        (3, false),
        (3, true),
        (3, true),
        (3, true),
    ];
    for (after, helps) in table {
        let asks = pacing.count(after);
        assert!(&rt; asks == helps);
    }
}
