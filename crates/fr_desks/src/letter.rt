//! Letters: each node's observations in the window that was delivered last.

ghost use Rattle.std.specs.Prelude.{◌≡◌, ◌<◌, true, Some, IfOk, OnOk, OnErr, length, option_map, slice_get, slice_set};
ghost use Rattle.fr_bus.specs.States.{take_done};
ghost use Rattle.fr_desks.specs.Letters.{AreSeen, sees};
ghost use Rattle.fr_status.specs.declared.seen.Seen.TheVariants as Sees;

use arrayvec::ArrayVec;
use fr_bus::bus::Bus;
use fr_bus::error::BusError;
use fr_frame::frame::{Bytes, duplicate_bytes};
use fr_slots::numbers::NodeId;
use fr_slots::window::Window;
use fr_status::seen::Seen;

/// The largest number of nodes of a cluster (project-defined).
pub(crate) const MOST_NODES: usize = 16;

/// A node's observations in a window.
#[derive(Drop)]
pub(crate) struct Observations {
    /// The observation on channel A.
    a: Seen,
    /// The observation on channel B.
    b: Seen,
}

impl Default for Observations {
    fn default() -> Observations {
        Observations {
            a: Seen::Silence,
            b: Seen::Silence,
        }
    }
}

/// Writes these bytes over the old ones.
fn write_over(place: &mut Bytes, bytes: &Bytes)
    ensures { place.new ≡ bytes.now }
{
    place.clear();
    let outcome = place.try_extend_from_slice(bytes.as_slice());
    let fits = outcome.is_ok();
    prove!(fits);
}

/// Writes an observation of these bytes over the old one.
fn write_bytes(place: &mut Seen, bytes: &Bytes)
    ensures { place.new ≡ Sees.Bytes bytes.now }
{
    match place {
        Seen::Bytes(old) => write_over(old, bytes),
        _ => *place = Seen::Bytes(duplicate_bytes(bytes)),
    }
}

/// Writes silence, unless it is there already.
fn write_silence(place: &mut Seen)
    ensures { place.new ≡ Sees.Silence }
{
    match place {
        Seen::Silence => {}
        _ => *place = Seen::Silence,
    }
}

// It writes in place, so no room for frames is moved.
/// Writes the observation over the old one.
fn write_seen(place: &mut Seen, seen: &Seen)
    ensures { place.new ≡ seen.now }
{
    match seen {
        Seen::Bytes(bytes) => write_bytes(place, bytes),
        Seen::Silence => write_silence(place),
        _ => *place = seen.duplicate(),
    }
}

/// Makes the take of node `at` in the window of this number, and writes its observations to the node's place.
///
/// Fails with `UnknownNode` without such a node or place, and otherwise as `Bus::take_into` does.
fn take_at(places: &mut [Observations], bus: &mut Bus, at: u8, number: u32) -> Result<(), BusError>
    ensures within { OnOk result (at < length places.old) }
    ensures places { OnOk result (places.new ≡ slice_set places.old at (sees bus.old at)) }
    ensures bus { OnOk result (bus.new ≡ take_done bus.old at) }
{
    let Some(node) = NodeId::new(at) else {
        return Err(BusError::UnknownNode);
    };
    let index = usize::from(at);
    if index >= places.len() {
        return Err(BusError::UnknownNode);
    }
    let place = &mut places[index];
    bus.take_into(node, number, &mut place.a, &mut place.b)
}

/// Makes the takes of all nodes, in their order, and writes their observations to their places.
fn take_each(places: &mut [Observations], bus: &mut Bus, number: u32) -> Result<(), BusError>
    ensures { OnOk result (AreSeen bus.old (length bus.old.stations) places.new) }
{
    for at in 0..bus.nodes() {
        take_at(places, bus, at, number)?;
    }
    Ok(())
}

/// The observations of all nodes in a window, before each node gets its own (project-defined).
///
/// The thread that moves the bus on has one for all windows.
#[derive(Drop)]
pub struct Delivery {
    places: ArrayVec<Observations, MOST_NODES>,
    /// The number of the window.
    number: u32,
    /// The window that opened once all nodes had taken, or none if the run was over.
    next: Option<Window>,
}

impl Delivery {
    /// Returns a delivery without an observation.
    pub fn new() -> Delivery {
        let mut places = ArrayVec::new();
        for _ in 0..MOST_NODES {
            if places.try_push(Observations::default()).is_err() {
                break;
            }
        }
        Delivery {
            places,
            number: 0,
            next: None,
        }
    }

    /// Makes the takes of all nodes, in their order, and then the bus's advance.
    ///
    /// Fails with `NotSealed` if the run is over, and otherwise with the error of the first take or of the advance that
    /// is refused. The takes before it stay made.
    pub(crate) fn take_all(&mut self, bus: &mut Bus) -> Result<(), BusError>
        ensures seen { OnOk result (AreSeen bus.old (length bus.old.stations) self.new.places.items) }
        ensures number { OnOk result (option_map (λ w. w.number) bus.old.opened ≡ Some self.new.number) }
        ensures next { OnOk result (self.new.next ≡ bus.new.opened) }
    {
        let Some(window) = bus.window() else {
            return Err(BusError::NotSealed);
        };
        let number = window.number;
        take_each(self.places.as_mut_slice(), bus, number)?;
        bus.advance()?;
        self.number = number;
        self.next = bus.window();
        Ok(())
    }

    /// Returns the number of the window.
    pub(crate) fn number(&self) -> u32
        ensures { result ≡ self.now.number }
    {
        self.number
    }

    /// Returns the window that opened once all nodes had taken, or none if the run was over.
    pub(crate) fn next(&self) -> Option<Window>
        ensures { result ≡ self.now.next }
    {
        self.next
    }

    /// Returns the observations of the node of this number.
    pub(crate) fn of(&self, at: usize) -> Option<&Observations>
        ensures { option_map (λ o. o.now) result ≡ slice_get self.now.places.items at }
    {
        self.places.as_slice().get(at)
    }
}

/// A node's observations in the window that was delivered last, and the window that opened then.
#[derive(Drop)]
pub(crate) struct Letter {
    /// The number of the window that was delivered last.
    number: Option<u32>,
    seen: Observations,
    /// The window that opened once all nodes had taken, or none if the run was over.
    next: Option<Window>,
    stopped: bool,
}

impl Default for Letter {
    /// Returns the letter before the first window.
    fn default() -> Letter {
        Letter {
            number: None,
            seen: Observations::default(),
            next: None,
            stopped: false,
        }
    }
}

impl Letter {
    /// Returns whether the window of this number is still to be delivered.
    ///
    /// After the last window and after a stop, no window is.
    pub(crate) fn awaits(&self, number: u32) -> bool {
        match self.number {
            Some(last) => last < number && self.next.is_some() && !self.stopped,
            None => !self.stopped,
        }
    }

    /// Returns whether the wire was stopped.
    pub(crate) fn is_stopped(&self) -> bool
        ensures { result ≡ self.now.stopped }
    {
        self.stopped
    }

    /// Stops the wire: from now on no window is awaited.
    pub(crate) fn stop(&mut self)
        ensures { self.new ≡ record self.old { stopped = true } }
    {
        self.stopped = true;
    }

    /// Puts the observations of the window of this number in place of those before, with the window that opened then.
    pub(crate) fn fill(&mut self, number: u32, seen: &Observations, next: Option<Window>)
        ensures number { self.new.number ≡ Some number }
        ensures a { self.new.seen.a ≡ seen.now.a }
        ensures b { self.new.seen.b ≡ seen.now.b }
        ensures next { self.new.next ≡ next }
        ensures stopped { self.new.stopped ≡ self.old.stopped }
    {
        self.number = Some(number);
        write_seen(&mut self.seen.a, &seen.a);
        write_seen(&mut self.seen.b, &seen.b);
        self.next = next;
    }

    /// Replaces `a` and `b` by the observations in the window of this number, and returns the window that opened then.
    ///
    /// Returns `WrongWindow` if another window was delivered last. Then `a` and `b` are unchanged.
    pub(crate) fn read_into(
        &self,
        number: u32,
        a: &mut Seen,
        b: &mut Seen,
    ) -> Result<Option<Window>, BusError>
        ensures a { OnOk result (a.new ≡ self.now.seen.a) }
        ensures b { OnOk result (b.new ≡ self.now.seen.b) }
        ensures next { IfOk result (λ next. next ≡ self.now.next) }
        ensures number { OnOk result (self.now.number ≡ Some number) }
        ensures refused_a { OnErr result (a.new ≡ a.old) }
        ensures refused_b { OnErr result (b.new ≡ b.old) }
    {
        if self.number != Some(number) {
            return Err(BusError::WrongWindow);
        }
        write_seen(a, &self.seen.a);
        write_seen(b, &self.seen.b);
        Ok(self.next)
    }
}
