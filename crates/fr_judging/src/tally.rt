//! Counts of a slot, and spans of time.

ghost use Rattle.std.specs.Prelude.{◌≡◌, IfOk, Some, length};
ghost use Rattle.fr_judging.specs.Counting.{time_of, timed};
ghost use Rattle.fr_judging.specs.Judging.{no_counts};
ghost use Rattle.fr_judging.specs.Tallies.{with_span, span_between, fresh_tally};

use crate::distance::since;
use crate::judge::PLACES;
use fr_recording::numbers::Moment;
use fr_slots::numbers::Cycle;
use std::alloc::{AllocError, Global};

/// The shortest and the longest of some times, in nanoseconds.
#[derive(Clone, Copy)]
pub struct Span {
    pub shortest: i128,
    pub longest: i128,
}

/// The frame of a slot that came last in a cycle in which it was due.
#[derive(Clone, Copy)]
pub struct Came {
    /// The number of the cycle.
    pub number: u128,
    /// Its count.
    pub cycle: Cycle,
    pub time: Option<Moment>,
}

/// Counts of a slot on a channel (project-defined).
#[derive(Clone, Copy)]
pub struct SlotTally {
    /// A good frame had a wrong cycle count, or came out of order.
    pub odd: bool,
    /// Good frames with data, and null frames.
    pub data_frames: u64,
    pub null_frames: u64,
    pub missing: u64,
    /// Findings other than `Missing`.
    pub other: u64,
    pub latest: Option<Came>,
    pub span: Option<Span>,
}

impl SlotTally {
    /// Returns the counts before the first record.
    pub fn new() -> SlotTally
        ensures { result ≡ fresh_tally }
    {
        SlotTally {
            odd: false,
            data_frames: 0,
            null_frames: 0,
            missing: 0,
            other: 0,
            latest: None,
            span: None,
        }
    }
}

/// Returns a span that has this time too.
fn with_span(span: Option<Span>, time: i128) -> Span
    ensures { result ≡ with_span span time }
{
    match span {
        None => Span {
            shortest: time,
            longest: time,
        },
        Some(span) => Span {
            shortest: if time < span.shortest {
                time
            } else {
                span.shortest
            },
            longest: if span.longest < time {
                time
            } else {
                span.longest
            },
        },
    }
}

/// Adds a time to a span, which stays in its place.
#[inline(always)]
fn lengthen(span: &mut Option<Span>, time: i128)
    ensures { span.new ≡ Some (with_span span.old time) }
{
    match span {
        None => {
            *span = Some(Span {
                shortest: time,
                longest: time,
            });
        }
        Some(span) => {
            if time < span.shortest {
                span.shortest = time;
            }
            if span.longest < time {
                span.longest = time;
            }
        }
    }
}

/// Adds the time between these two to a span, if both are known.
#[inline(always)]
fn lengthen_between(span: &mut Option<Span>, from: Option<Moment>, to: Option<Moment>)
    ensures { span.new ≡ span_between span.old from to }
{
    if let (Some(from), Some(to)) = (from, to) {
        lengthen(span, since(from, to));
    }
}

/// Keeps the frame that came last in a slot. If it follows the one before, the time between them is added to the span.
#[inline(always)]
pub(crate) fn time_frame(tally: &mut SlotTally, follows: bool, came: &Came)
    ensures { tally.new ≡ timed tally.old follows came.now }
{
    if follows {
        let from = latest_time(tally);
        lengthen_between(&mut tally.span, from, came.time);
    }
    tally.latest = Some(*came);
}

/// Returns a span that has the time between these two, if both are known.
pub(crate) fn span_between(
    span: Option<Span>,
    from: Option<Moment>,
    to: Option<Moment>,
) -> Option<Span>
    ensures { result ≡ span_between span from to }
{
    match (from, to) {
        (Some(from), Some(to)) => Some(with_span(span, since(from, to))),
        _ => span,
    }
}

/// Returns the time of the frame that came last.
#[inline(always)]
fn latest_time(tally: &SlotTally) -> Option<Moment>
    ensures { result ≡ time_of tally.now.latest }
{
    match tally.latest {
        Some(came) => came.time,
        None => None,
    }
}

/// Returns the counts of all slots, before the first record.
pub(crate) fn no_counts(alloc: Global) -> Result<Vec<SlotTally>, AllocError>
    ensures value { IfOk result (λ counts. counts.items ≡ no_counts) }
    ensures whole { IfOk result (λ counts. length counts.items ≡ 4096) }
{
    let tally = SlotTally::new();
    // For the prover: the types of these fields are named in no other way here.
    let (_latest, _time) = (tally.latest, latest_time(&tally));
    Ok(vec![in alloc; tally; PLACES]?)
}
