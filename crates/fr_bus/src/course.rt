//! The next window of a run.
//!
//! The windows of a cluster follow from all that passed in it. A course keeps numbers and two lanes in place of that
//! list.

ghost use Rattle.std.specs.Prelude.{◌≡◌, ◌<◌, ◌≤◌, ◌%◌, Some, None, true, if◌then◌else◌};
ghost use Rattle.fr_bus.specs.Courses.{ended};
ghost use Rattle.fr_bus.specs.Windows.{has_row, least_of};
ghost use Rattle.fr_minislot.specs.Lanes.{close_refusal};
ghost use Rattle.fr_slots.specs.Windows.{is_static};

use fr_minislot::lane::Lane;
use fr_slots::channel::Channel;
use fr_slots::numbers::{Cycle, SlotId};
use fr_slots::params::Params;
use fr_slots::window::{Window, opens_cycle};
use std::marker::Model;

/// The progress of a run (chapter 5; windows are project-defined).
#[derive(Drop)]
pub(crate) struct RunCourse {
    params: Params,
    /// The cycles of the run.
    cycles: u32,
    /// The number of windows that it passed.
    windows: u32,
    /// The number of cycles that began.
    begun: u32,
    /// The number of static windows that it passed in the last cycle.
    statics: u16,
    /// The progress of channel A's dynamic segment in it.
    a: Lane,
    /// The progress of channel B's.
    b: Lane,
}

impl Model for RunCourse {
    ghost use Rattle.fr_bus.specs.Courses.{Standpoint};

    ghost Value = { Standpoint };

    ghost use Rattle.fr_bus.specs.CourseFields.{standpoint_in, IsLawful};

    ghost view = { standpoint_in };

    ghost invariant = { IsLawful };
}

/// Returns the lesser of two numbers, each of which may be absent.
fn least_of(a: Option<u16>, b: Option<u16>) -> Option<u16>
    ensures { result ≡ least_of a b }
{
    match (a, b) {
        (Some(a), Some(b)) => Some(a.min(b)),
        (Some(a), None) => Some(a),
        (None, b) => b,
    }
}

/// Returns the cycle number of a run's cycle, which wraps to 0 after 63.
fn cycle_of(number: u32) -> Cycle
    ensures { result ≡ number % 64 }
{
    Cycle::from_bits((number % 64) as u8)
}

/// Returns the static slot of this number.
fn slot_of(number: u16) -> SlotId
    requires from_one { 1 ≤ number }
    requires at_most { number ≤ 2047 }
    ensures { result ≡ number }
{
    match SlotId::new(number) {
        Some(slot) => slot,
        None => unreachable!(),
    }
}

/// Returns 1 for a static window, and 0 for a dynamic one.
fn static_count(window: &Window) -> u16
    ensures { result ≡ if is_static window.now then 1 else 0 }
{
    if window.is_static() { 1 } else { 0 }
}

/// Returns whether the window is dynamic and has a slot on the channel.
fn has_row(channel: Channel, window: &Window) -> bool
    ensures { result ≡ has_row channel window.now }
{
    !window.is_static() && window.slot(channel).is_some()
}

/// Returns the lane after the window, given the bytes of the longest transmission on the channel.
fn lane_after(channel: Channel, lane: &Lane, window: &Window, bytes: u16) -> Lane
    requires { has_row channel window.now ≡ true → close_refusal lane.now bytes ≡ None }
    ensures { result ≡ ended channel lane.now window.now bytes }
{
    let mut lane = *lane;
    if has_row(channel, window) {
        let closed = lane.close(bytes);
        let is_closed = closed.is_ok();
        prove!(is_closed);
    }
    lane
}

impl RunCourse {
    ghost use Rattle.std.specs.Prelude.{◌≡◌, ◌≤◌, ◌<◌, ◌*◌, ◌^◌, [], Some};
    ghost use Rattle.fr_bus.specs.Courses.{IsCourse, opportunities, course_of, passed, first_next, inner_next};
    ghost use Rattle.fr_bus.specs.Courses.{dynamic_next, next_of};

    /// Returns the course of a run of so many cycles, at its start.
    pub(crate) fn new(params: &Params, cycles: u32) -> RunCourse
        requires { cycles * opportunities params.now < 2 ^ 32 }
        ensures { result ≡ course_of params.now cycles [] }
    {
        // For the prover: a copy field by field, since reading a field states the properties of parameters.
        let params = Params { ..*params };
        RunCourse {
            params,
            cycles,
            windows: 0,
            begun: 0,
            statics: 0,
            a: Lane::new(&params),
            b: Lane::new(&params),
        }
    }

    /// Returns the parameters of the cluster.
    pub(crate) fn params(&self) -> &Params
        ensures { result.now ≡ self.now.params }
    {
        &self.params
    }

    /// Returns the number of cycles that began, with the windows passed.
    pub(crate) fn begun(&self) -> u32
        ensures { result ≡ self.now.begun }
    {
        self.begun
    }

    /// States the properties of every course, and has no effect.
    pub(crate) fn known(&self)
        ensures { IsCourse self.now }
    {
        // For the prover: the clause of this call.
        let _ = &self.windows;
    }

    /// Returns the first window of the next cycle, if the run has a further cycle.
    fn first_next(&self) -> Option<Window>
        ensures { result ≡ first_next self.now }
    {
        if self.begun < self.cycles {
            Some(Window::fixed(self.windows, cycle_of(self.begun), slot_of(1)))
        } else {
            None
        }
    }

    /// Returns the next dynamic window of the cycle.
    fn dynamic_next(&self) -> Option<Window>
        requires { 1 ≤ self.now.windows }
        ensures { result ≡ dynamic_next self.now }
    {
        let minislot = least_of(self.a.next(), self.b.next())?;
        let a = self.a.opens(minislot);
        let b = self.b.opens(minislot);
        let cycle = cycle_of(self.begun - 1);
        Window::dynamic(self.windows, cycle, minislot, a, b)
    }

    /// Returns the next window of the cycle.
    fn inner_next(&self) -> Option<Window>
        requires { 1 ≤ self.now.windows }
        ensures { result ≡ inner_next self.now }
    {
        if self.statics < self.params.static_slots {
            let cycle = cycle_of(self.begun - 1);
            Some(Window::fixed(self.windows, cycle, slot_of(self.statics + 1)))
        } else {
            self.dynamic_next()
        }
    }

    /// Returns the next window, if the run has one.
    pub(crate) fn next(&self) -> Option<Window>
        ensures { result ≡ next_of self.now }
    {
        if self.windows == 0 {
            return self.first_next();
        }
        match self.inner_next() {
            Some(window) => Some(window),
            None => self.first_next(),
        }
    }

    /// Passes the next window, given the bytes of the longest transmissions on A and on B.
    pub(crate) fn pass(&mut self, window: &Window, a: u16, b: u16)
        requires next { next_of self.old ≡ Some window.now }
        requires few_a { a ≤ 262 }
        requires few_b { b ≤ 262 }
        ensures { self.new ≡ passed self.old window.now a b }
    {
        if opens_cycle(window) {
            *self = RunCourse {
                params: self.params,
                cycles: self.cycles,
                windows: self.windows + 1,
                begun: self.begun + 1,
                statics: 1,
                a: Lane::new(&self.params),
                b: Lane::new(&self.params),
            };
        } else {
            *self = RunCourse {
                params: self.params,
                cycles: self.cycles,
                windows: self.windows + 1,
                begun: self.begun,
                statics: self.statics + static_count(window),
                a: lane_after(Channel::A, &self.a, window, a),
                b: lane_after(Channel::B, &self.b, window, b),
            };
        }
    }
}
