//! One channel of a recording: the cycle that is open there, and the frame that waits.

ghost use Rattle.std.specs.Prelude.{◌≡◌, ◌<◌};
ghost use Rattle.fr_judging.specs.Lanes.{fresh_lane, is_near, is_next, opens, opens_in, disturbed, ahead_of};

use crate::line::At;
use crate::tally::Span;
use fr_frame::frame::Frame;
use fr_recording::numbers::Moment;
use fr_slots::numbers::Cycle;

/// A good frame that waits for the next one of its channel.
#[derive(Drop)]
pub struct Held {
    pub at: At,
    pub frame: Frame,
}

/// The cycle count and the slot of the next good frame.
#[derive(Clone, Copy)]
pub struct Next {
    pub cycle: Cycle,
    pub slot: u16,
}

/// The static frame against which the time of the next one is held.
#[derive(Clone, Copy)]
pub struct Fixed {
    pub slot: u16,
    pub time: Moment,
}

/// A channel of a recording.
#[derive(Drop)]
pub struct Lane {
    /// All frame records.
    pub frames: u64,
    /// The cycles that were opened.
    pub cycles: u64,
    pub gaps: u64,
    /// The cycles in gaps.
    pub lost: u128,
    /// The times between the first frames of cycles that follow each other.
    pub span: Option<Span>,
    /// There was a good frame.
    pub heard: bool,
    /// The number of the record of the last good frame.
    pub spoke: u64,
    /// The cycles that the other channel opened since then.
    pub alone: u64,
    /// The other channel had the same cycle open, and went on.
    pub left: bool,
    /// The cycles since the first one, those in gaps too.
    pub number: u128,
    /// The count of the open cycle.
    pub current: Option<Cycle>,
    /// The time and the slot of its first frame.
    pub began: Option<Moment>,
    pub first: u16,
    /// The slot of its last frame, or 0.
    pub last: u16,
    pub fixed: Option<Fixed>,
    /// The slot after the last dynamic frame, and the minislot at which it opens.
    pub slot: u32,
    pub minislot: u64,
    pub held: Option<Held>,
    /// The disturbed records since the last frame, and those since a frame waits.
    pub ill: u64,
    pub ill_held: u64,
}

impl Lane {
    /// Returns the channel before its first record.
    pub fn new() -> Lane
        ensures { result ≡ fresh_lane }
    {
        Lane {
            frames: 0,
            cycles: 0,
            gaps: 0,
            lost: 0,
            span: None,
            heard: false,
            spoke: 0,
            alone: 0,
            left: false,
            number: 0,
            current: None,
            began: None,
            first: 0,
            last: 0,
            fixed: None,
            slot: 0,
            minislot: 0,
            held: None,
            ill: 0,
            ill_held: 0,
        }
    }

    /// Counts a disturbed record.
    pub(crate) fn disturb(&mut self)
        ensures { self.new ≡ disturbed self.old }
    {
        if self.held.is_some() {
            self.ill_held = self.ill_held.saturating_add(1);
        } else {
            self.ill = self.ill.saturating_add(1);
        }
    }
}

/// Returns how many counts one cycle is ahead of another, modulo 64.
fn ahead_of(from: Cycle, to: Cycle) -> u8
    ensures value { result ≡ ahead_of from to }
    ensures fits { result < 64 }
{
    (to.number() + 64 - from.number()) % 64
}

/// Returns whether a count is one of the eight after another.
fn is_near(from: Cycle, to: Cycle) -> bool
    ensures { result ≡ is_near from to }
{
    let ahead = ahead_of(from, to);
    1 <= ahead && ahead <= 8
}

/// Returns whether a count is the one after another.
fn is_next(from: Cycle, to: Cycle) -> bool
    ensures { result ≡ is_next from to }
{
    ahead_of(from, to) == 1
}

/// Returns whether a good frame opens its cycle, by the next good frame.
fn opens_in(current: Option<Cycle>, frame: Next, next: Next) -> bool
    ensures { result ≡ opens_in current frame next }
{
    let (x, y) = (frame.cycle, next.cycle);
    if y == x && frame.slot < next.slot {
        return true;
    }
    match current {
        None => is_near(x, y),
        Some(c) => {
            (is_next(x, y) && y != c)
                || (is_near(c, x) && y != c && (!is_next(c, y) || is_next(c, x)) && y != x)
        }
    }
}

/// Returns whether a good frame opens its cycle, by the next good frame of its channel, if there is one.
pub(crate) fn opens(current: Option<Cycle>, frame: Next, next: Option<Next>) -> bool
    ensures { result ≡ opens current frame next }
{
    match next {
        None => true,
        Some(next) => opens_in(current, frame, next),
    }
}
