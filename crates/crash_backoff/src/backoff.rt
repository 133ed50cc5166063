//! The wait before a restart, by the count of crashes in a row, and the count after one more crash.
//! The first three crashes cost no wait, then it doubles from half a minute to 16 minutes, and
//! after 200 crashes the row is given up.
ghost use Rattle.std.specs.Prelude.{◌≡◌, ◌↔◌, IsTrue};
ghost use Rattle.crash_backoff.specs.Backoff.{wait_of, due_from, IsDue, count_after};

use crate::delay::Wait;
use crate::moment::Moment;

/// How long a row runs, in seconds, for its next crash to be counted as its first.
const STEADY: u32 = 300;

/// The wait of a row that has crashed `count` times.
pub fn wait(count: u32) -> Wait
    ensures { result ≡ wait_of count }
{
    match count {
        0..=3 => Wait::Now,
        4 => Wait::After(30),
        5 => Wait::After(60),
        6 => Wait::After(120),
        7 => Wait::After(240),
        8 => Wait::After(480),
        9..=200 => Wait::After(960),
        _ => Wait::Never,
    }
}

/// The second from which a row that has crashed `count` times, the last time at `since`, may be
/// restarted, which may lie past the last moment. There is none where the row is given up.
pub fn due_at(since: Moment, count: u32) -> Option<u64>
    ensures { result ≡ due_from since count }
{
    match wait(count) {
        Wait::Now => Some(u64::from(since.0)),
        Wait::After(seconds) => Some(u64::from(since.0) + u64::from(seconds)),
        Wait::Never => None,
    }
}

/// Whether a row that has crashed `count` times, the last time at `since`, may be restarted.
pub fn due(since: Moment, count: u32, now: Moment) -> bool
    ensures { IsTrue result ↔ IsDue since count now }
{
    match due_at(since, count) {
        Some(at) => at <= u64::from(now.0),
        None => false,
    }
}

/// The count of crashes after one more, where the row had run for `ran` seconds, or not at all.
/// It stays at the last number of its type.
pub fn next_count(count: u32, ran: Option<u32>) -> u32
    ensures { result ≡ count_after count ran }
{
    match ran {
        Some(seconds) if seconds >= STEADY => 1,
        _ => count.saturating_add(1),
    }
}

#[cfg(test)]
mod tests {
    use super::*;

    #[test]
    fn waits_double_from_the_fourth_crash_to_the_ninth(rt: HostRuntime) {
        for (count, want) in [
            (0, Wait::Now),
            (3, Wait::Now),
            (4, Wait::After(30)),
            (5, Wait::After(60)),
            (6, Wait::After(120)),
            (7, Wait::After(240)),
            (8, Wait::After(480)),
            (9, Wait::After(960)),
            (10, Wait::After(960)),
            (200, Wait::After(960)),
            (201, Wait::Never),
            (4_294_967_295, Wait::Never),
        ] {
            assert_eq!(rt; wait(count), want, "after {count} crashes");
        }
    }

    #[test]
    fn a_restart_is_due_from_the_second_in_which_the_wait_ends(rt: HostRuntime) {
        for (count, since, now, want) in [
            (3, 1000, 999, false),
            (3, 1000, 1000, true),
            (4, 1000, 1029, false),
            (4, 1000, 1030, true),
            (200, 1000, 1960, true),
            (201, 0, 4_294_967_295, false),
            (9, 4_294_967_000, 4_294_967_295, false),
        ] {
            assert_eq!(rt;
                due(Moment(since), count, Moment(now)),
                want,
                "{count} at {now}"
            );
        }
        assert_eq!(rt; due_at(Moment(4_294_967_000), 9), Some(4_294_967_960));
    }

    #[test]
    fn five_minutes_make_the_next_crash_a_first_one(rt: HostRuntime) {
        for (count, ran, want) in [
            (0, None, 1),
            (7, Some(299), 8),
            (7, Some(300), 1),
            (7, None, 8),
            (4_294_967_295, Some(10), 4_294_967_295),
            (4_294_967_295, Some(301), 1),
        ] {
            assert_eq!(rt; next_count(count, ran), want, "after {count} crashes");
        }
    }
}
