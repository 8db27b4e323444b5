//! Times in a recording: the distance of two cycles, and the place of a frame in its cycle.

ghost use Rattle.std.specs.Prelude.{◌≡◌, ◌+◌, ◌-◌, ◌*◌, ◌^◌, ◌<◌, ◌≤◌, pos, ℤ, ◌-ℤ◌, ◌+ℤ◌, ◌≤ℤ◌, ◌<ℤ◌, neg_ℤ};
ghost use Rattle.fr_judging.specs.Distances.{steps_of, time_between, rounds_by, rounds_of, due_time, agrees};
ghost use Rattle.fr_judging.specs.Distances.{distance_with, distance_by, by_times, distance_to, is_anew, anew_by};
ghost use Rattle.fr_judging.specs.Distances.{is_long};
ghost use Rattle.fr_judging.specs.Distances.{time_off, time_by, time_from, time_finding, fixed_at, fixed_after};
ghost use Rattle.fr_judging.specs.Distances.{steps_from};
ghost use Rattle.std.specs.Option.{is_none};
ghost use Rattle.std.specs.Prelude.{None};

use crate::lane::{Fixed, Lane};
use crate::rules::Rules;
use fr_frame::lent::LentFrame;
use fr_logged::finding::{Finding, Name, Word};
use fr_recording::numbers::Moment;
use fr_slots::numbers::Cycle;

/// The distance of two cycles.
#[derive(Clone, Copy)]
pub struct Distance {
    /// The number of cycles from one to the other.
    pub past: u128,
    /// The finding if the times don't agree with the counts.
    pub clock: Option<Finding>,
}

/// Returns the cycles from one count to another: 1 to 64.
fn steps_of(from: Cycle, to: Cycle) -> u8
    ensures value { result ≡ steps_of from to }
    ensures some { 1 ≤ result }
    ensures few { result ≤ 64 }
{
    (to.number() + 63 - from.number()) % 64 + 1
}

/// Returns the cycles from the open one to this count.
fn steps_from(from: Option<Cycle>, to: Cycle) -> u8
    ensures value { result ≡ steps_from from to }
    ensures some { 1 ≤ result }
    ensures few { result ≤ 64 }
{
    match from {
        None => 1,
        Some(from) => steps_of(from, to),
    }
}

/// Returns the time from one moment to another.
#[inline(always)]
pub(crate) fn since(from: Moment, to: Moment) -> i128
    ensures value { result ≡ to -ℤ from }
    ensures low { neg_ℤ (pos (2 ^ 96)) ≤ℤ result }
    ensures high { result ≤ℤ pos (2 ^ 96) }
{
    to.nanoseconds() - from.nanoseconds()
}

/// Returns a time that is shorter by so much.
fn less(time: i128, by: u64) -> i128
    requires low { neg_ℤ (pos (2 ^ 98)) ≤ℤ time }
    requires high { time ≤ℤ pos (2 ^ 98) }
    ensures { result ≡ time -ℤ pos by }
{
    time - i128::from(by)
}

/// Returns a time that is longer by so much.
fn more(time: i128, by: u64) -> i128
    requires low { neg_ℤ (pos (2 ^ 98)) ≤ℤ time }
    requires high { time ≤ℤ pos (2 ^ 98) }
    ensures { result ≡ time +ℤ pos by }
{
    time + i128::from(by)
}

/// Returns the time between two first frames, less the distance of their slots in the cycle.
fn time_between(slot_ns: u64, from_slot: u16, to_slot: u16, from: Moment, to: Moment) -> i128
    requires { slot_ns < 2 ^ 48 }
    ensures value { result ≡ time_between slot_ns from_slot to_slot from to }
    ensures low { neg_ℤ (pos (2 ^ 97)) ≤ℤ result }
    ensures high { result ≤ℤ pos (2 ^ 97) }
{
    let time = more(since(from, to), u64::from(from_slot) * slot_ns);
    less(time, u64::from(to_slot) * slot_ns)
}

/// Returns how many times 64 cycles more than by the counts lie between.
fn rounds_by(cycle_ns: u64, later: i128) -> u128
    requires some { 0 < cycle_ns }
    requires few { cycle_ns < 2 ^ 48 }
    requires low { neg_ℤ (pos (2 ^ 98)) ≤ℤ later }
    requires high { later ≤ℤ pos (2 ^ 98) }
    ensures value { result ≡ rounds_by cycle_ns later }
    ensures fits { result * (64 * cycle_ns) < 2 ^ 99 }
{
    let half = i128::from(32 * cycle_ns);
    if later < half {
        return 0;
    }
    more(later, 32 * cycle_ns).unsigned_abs() / u128::from(64 * cycle_ns)
}

/// Returns the distance of so many rounds.
fn distance_with(cycle_ns: u64, steps: u8, time: i128, rounds: u128) -> Distance
    requires some { 0 < cycle_ns }
    requires few { cycle_ns < 2 ^ 48 }
    requires low { neg_ℤ (pos (2 ^ 97)) ≤ℤ time }
    requires high { time ≤ℤ pos (2 ^ 97) }
    requires fits { rounds * (64 * cycle_ns) < 2 ^ 99 }
    ensures value { result ≡ distance_with cycle_ns steps time rounds }
    ensures few { result.past < 2 ^ 127 }
{
    let due = u128::from(u64::from(steps) * cycle_ns) + rounds * u128::from(64 * cycle_ns);
    let due = due as i128;
    if 4 * (time - due).unsigned_abs() <= u128::from(cycle_ns) {
        return Distance {
            past: u128::from(steps) + 64 * rounds,
            clock: None,
        };
    }
    let clock = Finding {
        name: Name::Clock,
        expected: Word::Number(due),
        found: Word::Number(time),
    };
    Distance {
        past: u128::from(steps),
        clock: Some(clock),
    }
}

/// Returns the distance of two cycles by the time between them.
fn distance_by(cycle_ns: u64, steps: u8, time: i128) -> Distance
    requires some { 0 < cycle_ns }
    requires few { cycle_ns < 2 ^ 48 }
    requires low { neg_ℤ (pos (2 ^ 97)) ≤ℤ time }
    requires high { time ≤ℤ pos (2 ^ 97) }
    ensures value { result ≡ distance_by cycle_ns steps time }
    ensures few { result.past < 2 ^ 127 }
{
    let later = less(time, u64::from(steps) * cycle_ns);
    distance_with(cycle_ns, steps, time, rounds_by(cycle_ns, later))
}

/// Returns the distance of two cycles by the times of their first frames, where they count.
fn by_times(
    rules: &Rules,
    steps: u8,
    from_slot: u16,
    to_slot: u16,
    from: Option<Moment>,
    to: Option<Moment>,
) -> Distance
    ensures value { result ≡ by_times rules.now steps from_slot to_slot from to }
    ensures few { result.past < 2 ^ 127 }
{
    let by_counts = Distance {
        past: u128::from(steps),
        clock: None,
    };
    let (Some(from), Some(to)) = (from, to) else {
        return by_counts;
    };
    let fixed = rules.static_slots();
    if rules.macrotick == 0 || u32::from(from_slot) > fixed || u32::from(to_slot) > fixed {
        return by_counts;
    }
    let time = time_between(rules.slot_time(), from_slot, to_slot, from, to);
    distance_by(rules.cycle_time(), steps, time)
}

/// Returns the distance from the open cycle to that of a frame which opens one.
pub(crate) fn distance_to(
    rules: &Rules,
    lane: &Lane,
    frame: &LentFrame<'_>,
    time: Option<Moment>,
) -> Distance
    ensures value { result ≡ distance_to rules.now lane.now frame.now time }
    ensures few { result.past < 2 ^ 127 }
{
    let steps = steps_from(lane.current, frame.cycle);
    by_times(rules, steps, lane.first, frame.id, lane.began, time)
}

/// Returns whether a time is 63 cycles and a half or more.
#[inline(always)]
fn is_long(cycle_ns: u64, time: i128) -> bool
    requires few { cycle_ns < 2 ^ 48 }
    requires low { neg_ℤ (pos (2 ^ 96)) ≤ℤ time }
    requires high { time ≤ℤ pos (2 ^ 96) }
    ensures { result ≡ is_long cycle_ns time }
{
    i128::from(127 * cycle_ns) <= time + time
}

/// Returns whether a frame with the count of the open cycle comes so late that it opens a cycle.
#[inline(always)]
pub(crate) fn is_anew(rules: &Rules, lane: &Lane, time: Option<Moment>) -> bool
    ensures { result ≡ is_anew rules.now lane.now time }
{
    if rules.macrotick == 0 {
        return false;
    }
    let (Some(from), Some(to)) = (lane.began, time) else {
        return false;
    };
    is_long(rules.cycle_time(), since(from, to))
}

/// Returns the finding of a time that is off by more than half a static slot.
fn time_off(slot_ns: u64, due: u64, time: i128) -> Option<Finding>
    requires low { neg_ℤ (pos (2 ^ 97)) ≤ℤ time }
    requires high { time ≤ℤ pos (2 ^ 97) }
    ensures { result ≡ time_off slot_ns due time }
{
    let due = i128::from(due);
    if 2 * (time - due).unsigned_abs() <= u128::from(slot_ns) {
        return None;
    }
    Some(Finding {
        name: Name::Time,
        expected: Word::Number(due),
        found: Word::Number(time),
    })
}

/// Returns the finding of a frame's time since the last static frame of its cycle.
fn time_by(slot_ns: u64, fixed: Fixed, slot: u16, time: Moment) -> Option<Finding>
    requires { slot_ns < 2 ^ 48 }
    ensures { result ≡ time_by slot_ns fixed slot time }
{
    let due = u64::from(slot.saturating_sub(fixed.slot)) * slot_ns;
    time_off(slot_ns, due, since(fixed.time, time))
}

/// Returns the finding of a static frame's time. A frame with another finding has none.
pub(crate) fn time_finding(
    rules: &Rules,
    lane: &Lane,
    slot: u16,
    time: Option<Moment>,
    finding: Option<Finding>,
) -> Option<Finding>
    ensures { result ≡ time_finding rules.now lane.now slot time finding }
{
    if finding.is_some() || rules.macrotick == 0 {
        return None;
    }
    match (lane.fixed, time) {
        (Some(fixed), Some(time)) => time_by(rules.slot_time(), fixed, slot, time),
        _ => None,
    }
}

/// Returns the reference for the next static frame, after a frame with this finding of its time.
pub(crate) fn fixed_after(
    rules: &Rules,
    lane: &Lane,
    slot: u16,
    time: Option<Moment>,
    wrong: Option<Finding>,
) -> Option<Fixed>
    ensures { result ≡ fixed_after rules.now lane.now slot time wrong }
{
    if wrong.is_some() || rules.macrotick == 0 {
        return lane.fixed;
    }
    match time {
        Some(time) => Some(Fixed { slot, time }),
        None => None,
    }
}

/// Returns whether the time of a static frame has no finding.
#[inline(always)]
pub(crate) fn is_timely(rules: &Rules, lane: &Lane, slot: u16, time: Option<Moment>) -> bool
    ensures { result ≡ is_none (time_finding rules.now lane.now slot time None) }
{
    if rules.macrotick == 0 {
        return true;
    }
    is_on_time(rules, lane, slot, time)
}

/// Returns whether the time of a static frame has no finding. It isn't inlined, since it makes room for one.
#[inline(never)]
fn is_on_time(rules: &Rules, lane: &Lane, slot: u16, time: Option<Moment>) -> bool
    ensures { result ≡ is_none (time_finding rules.now lane.now slot time None) }
{
    time_finding(rules, lane, slot, time, None).is_none()
}
