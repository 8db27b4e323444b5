//! The bus of a cluster without a record, so a run of any length has room.

ghost use Rattle.std.specs.Prelude.{◌≡◌, ◌+◌, ◌*◌, ◌^◌, nat_lt, nat_le, ◌&&◌};
ghost use Rattle.fr_bus.specs.Live.{cycles_suit};
ghost use Rattle.fr_bus.specs.Courses.{opportunities};
ghost use Rattle.fr_bus.specs.Record.{heard};

use crate::error::{BusError, Phase};
use crate::fault::Fault;
use crate::kept::KeptBus;
use crate::outcome::Sealed;
use fr_interface::interface::Offer;
use fr_interface::sight::{Heard, Sight};
use fr_schedule::cluster::Cluster;
use fr_slots::channel::Channel;
use fr_slots::numbers::NodeId;
use fr_slots::params::Params;
use fr_slots::window::Window;
use fr_status::seen::Seen;
use std::alloc::Global;
use std::marker::Model;

/// The greatest number of cycles of a run without a record (project-defined).
pub const LIVE_CYCLES: u32 = 4_000_000;

/// The greatest number of windows of a run without a record (project-defined). Each takes two slot entries of an
/// interface, which has room for 3,221,225,469 of them.
pub const LIVE_WINDOWS: u32 = 1_610_612_734;

/// The bus of a cluster in a run of so many cycles, which keeps the last sealed window alone (project-defined). It does
/// the same as a `Bus`.
#[derive(Drop)]
pub struct LiveBus {
    kept: KeptBus,
    last: Option<Sealed>,
    // A frame is decoded here, once a window, and not by each node that receives it.
    heard_a: Heard,
    heard_b: Heard,
}

impl Model for LiveBus {
    ghost use Rattle.fr_bus.specs.Standing.{LiveStanding};

    ghost Value = { LiveStanding };

    ghost use Rattle.fr_bus.specs.LiveFields.{standing_in, HasRun};

    ghost view = { standing_in };

    ghost invariant = { HasRun };
}

/// Returns whether a run of a cluster with these parameters may have so many cycles.
fn cycles_suit(params: &Params, cycles: u32) -> bool
    ensures { result ≡ cycles_suit params.now cycles }
{
    let opportunities = u64::from(params.static_slots) + u64::from(params.minislots);
    cycles >= 1
        && cycles <= LIVE_CYCLES
        && u64::from(cycles) * opportunities <= u64::from(LIVE_WINDOWS)
}

/// Writes what is heard on the channel of a sealed window.
pub(crate) fn hear(params: &Params, sealed: &Sealed, channel: Channel, place: &mut Heard)
    ensures { place.new ≡ heard params.now sealed.now channel }
{
    // In most windows no node sends.
    if sealed.is_silent(channel) {
        place.fall_silent();
    } else {
        hear_some(params, sealed, channel, place);
    }
}

/// Writes what is heard on the channel of a sealed window.
///
/// It isn't inlined, so that a silent channel doesn't pay for the room of a frame.
#[inline(never)]
fn hear_some(params: &Params, sealed: &Sealed, channel: Channel, place: &mut Heard)
    ensures { place.new ≡ heard params.now sealed.now channel }
{
    let seen = sealed.heard(params, channel);
    *place = Heard::of(params, &sealed.window, channel, seen);
}

impl LiveBus {
    ghost use Rattle.std.specs.Prelude.{◌≡◌, OnOk, OnErr, length, option_map};
    ghost use Rattle.std.specs.Result.{result_err};
    ghost use Rattle.fr_bus.specs.Live.{OpensLive, SealsLive};
    ghost use Rattle.fr_bus.specs.Standing.{bare, ForEachLiveHistory, IsLiveHistory};
    ghost use Rattle.fr_bus.specs.States.{collecting_of, put_refusal, put_done, inject_refusal, inject_done};
    ghost use Rattle.fr_bus.specs.States.{take_refusal, take_done, seen_last, advance_refusal, advanced};
    ghost use Rattle.fr_bus.specs.Record.{heard_last};
    ghost use Rattle.fr_interface.specs.Sights.{seen_in};
    ghost use Rattle.fr_slots.specs.declared.channel.Channel.TheVariants as channel;

    /// Returns the bus of a cluster for a run of so many cycles, 1 to 4,000,000. It collects in its first window: cycle
    /// 0, slot 1.
    ///
    /// Fails with `BadCycles` for 0 cycles or more than 4,000,000, and for so many that the windows could be more than
    /// 1,610,612,734. That is the number of cycles, multiplied by the static slots and the minislots of a cycle. Then
    /// it fails with `Memory` if an allocation fails.
    pub fn new(alloc: Global, cluster: &Cluster, cycles: u32) -> Result<LiveBus, BusError>
        ensures { OpensLive cluster.now cycles result }
    {
        if !cycles_suit(cluster.params(), cycles) {
            return Err(BusError::BadCycles);
        }
        match KeptBus::new(alloc, cluster, cycles) {
            Ok(kept) => Ok(LiveBus {
                kept,
                last: None,
                heard_a: Heard::silence(),
                heard_b: Heard::silence(),
            }),
            Err(_) => Err(BusError::Memory),
        }
    }

    /// Returns the open window, or none once the run is over.
    pub fn window(&self) -> Option<Window>
        ensures { result ≡ self.now.bus.opened }
    {
        self.kept.window()
    }

    /// Returns the phase of the open window.
    pub fn phase(&self) -> Phase
        ensures { result ≡ self.now.bus.phase }
    {
        self.kept.phase()
    }

    /// Returns the open window while the bus collects, or none once it is sealed or the run is over.
    pub fn collecting(&self) -> Option<Window>
        ensures { result ≡ collecting_of (bare self.now.bus) }
    {
        self.kept.collecting()
    }

    /// Returns the number of nodes, 1 to 16.
    pub fn nodes(&self) -> u8
        ensures { result ≡ length self.now.bus.stations }
    {
        self.kept.nodes()
    }

    /// Returns the number of cycles that began with a sealed window, as `Bus::cycles_begun` does.
    pub fn cycles_begun(&self) -> u32
        ensures { result ≡ self.now.bus.course.begun }
    {
        self.kept.begun()
    }

    /// Returns the window that was sealed last.
    pub fn last(&self) -> Option<&Sealed>
        ensures { option_map (λ s. s.now) result ≡ self.now.last }
    {
        self.last.as_ref()
    }

    /// Copies the node's offer in the open window, which has this number, as `Bus::put` does. Fails as that does.
    pub fn put(&mut self, node: NodeId, number: u32, offer: &Offer) -> Result<(), BusError>
        ensures refusal { result_err result ≡ put_refusal (bare self.old.bus) node number }
        ensures history { ForEachLiveHistory self.old (λ b. OnOk result
            (IsLiveHistory self.new (put_done b node offer.now))) }
        ensures refused { OnErr result (self.new ≡ self.old) }
    {
        self.kept.put(node, number, offer)
    }

    /// Injects the fault in the open window alone, as `Bus::inject` does. Fails as that does.
    pub fn inject(&mut self, fault: Fault) -> Result<(), BusError>
        ensures refusal { result_err result ≡ inject_refusal (bare self.old.bus) fault }
        ensures history { ForEachLiveHistory self.old (λ b. OnOk result
            (IsLiveHistory self.new (inject_done b fault))) }
        ensures refused { OnErr result (self.new ≡ self.old) }
    {
        self.kept.inject(fault)
    }

    /// Decides the outcome of each transmission of the open window, as `Bus::seal` does. Fails as that does.
    pub fn seal(&mut self) -> Result<(), BusError>
        ensures { SealsLive self.old result self.new }
    {
        let sealed = self.kept.outcome()?;
        let window = sealed.window;
        let a = sealed.longest(Channel::A);
        let b = sealed.longest(Channel::B);
        self.kept.close(&window, a, b);
        hear(self.kept.params(), &sealed, Channel::A, &mut self.heard_a);
        hear(self.kept.params(), &sealed, Channel::B, &mut self.heard_b);
        self.last = Some(sealed);
        Ok(())
    }

    /// Writes the node's observations of the sealed window, which has this number, to `a` and `b`, as `Bus::take_into`
    /// does. Fails as that does.
    pub fn take_into(
        &mut self,
        node: NodeId,
        number: u32,
        a: &mut Seen,
        b: &mut Seen,
    ) -> Result<(), BusError>
        ensures refusal { result_err result ≡ take_refusal (bare self.old.bus) node number }
        ensures seen_on_a { ForEachLiveHistory self.old (λ s. OnOk result (a.new ≡ seen_last s channel.A node)) }
        ensures seen_on_b { ForEachLiveHistory self.old (λ s. OnOk result (b.new ≡ seen_last s channel.B node)) }
        ensures history { ForEachLiveHistory self.old (λ s. OnOk result (IsLiveHistory self.new (take_done s node))) }
        ensures refused { OnErr result (self.new ≡ self.old) }
        ensures refused_a { OnErr result (a.new ≡ a.old) }
        ensures refused_b { OnErr result (b.new ≡ b.old) }
    {
        self.kept.take_into(self.last.as_ref(), node, number, a, b)
    }

    /// Takes the node's observations of the sealed window, which has this number, without a copy: `sight` lends them.
    /// Fails as `Bus::take_into` does.
    pub fn take(&mut self, node: NodeId, number: u32) -> Result<(), BusError>
        ensures refusal { result_err result ≡ take_refusal (bare self.old.bus) node number }
        ensures history { ForEachLiveHistory self.old (λ s. OnOk result (IsLiveHistory self.new (take_done s node))) }
        ensures refused { OnErr result (self.new ≡ self.old) }
    {
        self.kept.take(node, number)
    }

    /// Returns what is heard on the channel of the last sealed window.
    fn heard_on(&self, channel: Channel) -> &Heard
        ensures { result.now ≡ heard_last self.now.bus.cluster.params self.now.last channel }
    {
        match channel {
            Channel::A => &self.heard_a,
            Channel::B => &self.heard_b,
        }
    }

    /// Returns the node's observation on the channel of the last sealed window, or silence before the first one.
    pub fn sight(&self, node: NodeId, channel: Channel) -> Sight<'_>
        ensures { ForEachLiveHistory self.now (λ s. seen_in result ≡ seen_last s channel node) }
    {
        let heard = self.heard_on(channel);
        match &self.last {
            Some(sealed) => sealed.sight(self.kept.params(), channel, node, heard),
            None => Sight::Heard(heard),
        }
    }

    /// Opens the next window or ends the run, as `Bus::advance` does. Fails as that does.
    pub fn advance(&mut self) -> Result<(), BusError>
        ensures refusal { result_err result ≡ advance_refusal (bare self.old.bus) }
        ensures history { ForEachLiveHistory self.old (λ b. OnOk result (IsLiveHistory self.new (advanced b))) }
        ensures refused { OnErr result (self.new ≡ self.old) }
    {
        self.kept.advance()
    }
}
