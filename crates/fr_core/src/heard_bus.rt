//! A bus that keeps what is heard.

use fr_bus::bus::Bus;
use fr_bus::error::BusError;
use fr_bus::fault::Fault;
use fr_interface::interface::Offer;
use fr_interface::sight::{Heard, Sight};
use fr_slots::channel::Channel;
use fr_slots::numbers::NodeId;
use fr_status::seen::Seen;
use std::marker::Model;

/// A bus, and what is heard on each channel of its last sealed window. So each frame is decoded once, and not by each
/// node that receives it. Its calls are those of the bus.
#[derive(Drop)]
pub(crate) struct HeardBus {
    bus: Bus,
    heard_a: Heard,
    heard_b: Heard,
}

impl Model for HeardBus {
    ghost use Rattle.fr_bus.specs.States.{BusState};
    ghost use Rattle.fr_core.specs.Hearing.{AreHeard};

    ghost Value = { BusState };

    ghost view = { λ h. h.bus };

    ghost invariant = { λ h. AreHeard h.bus h.heard_a h.heard_b };
}

impl HeardBus {
    ghost use Rattle.std.specs.Prelude.{◌≡◌, OnOk, OnErr};
    ghost use Rattle.std.specs.Result.{result_err};
    ghost use Rattle.fr_bus.specs.States.{put_refusal, put_done, inject_refusal, inject_done, Seals};
    ghost use Rattle.fr_bus.specs.States.{take_refusal, take_done, seen_last, last_heard, advance_refusal, advanced};
    ghost use Rattle.fr_interface.specs.Sights.{seen_in};
    ghost use Rattle.fr_slots.specs.declared.channel.Channel.TheVariants as channel;

    /// Returns this bus, with what is heard in its last window.
    pub(crate) fn of(bus: Bus) -> HeardBus
        ensures { result ≡ bus }
    {
        let mut heard_a = Heard::silence();
        let mut heard_b = Heard::silence();
        bus.hear_into(Channel::A, &mut heard_a);
        bus.hear_into(Channel::B, &mut heard_b);
        HeardBus {
            bus,
            heard_a,
            heard_b,
        }
    }

    /// Returns the bus.
    pub(crate) fn bus(&self) -> &Bus
        ensures { result.now ≡ self.now }
    {
        &self.bus
    }

    /// Makes the bus's `put`.
    pub(crate) fn put(&mut self, node: NodeId, number: u32, offer: &Offer) -> Result<(), BusError>
        ensures refusal { result_err result ≡ put_refusal self.old node number }
        ensures accepted { OnOk result (self.new ≡ put_done self.old node offer.now) }
        ensures refused { OnErr result (self.new ≡ self.old) }
    {
        self.bus.put(node, number, offer)
    }

    /// Makes the bus's `inject`.
    pub(crate) fn inject(&mut self, fault: Fault) -> Result<(), BusError>
        ensures refusal { result_err result ≡ inject_refusal self.old fault }
        ensures accepted { OnOk result (self.new ≡ inject_done self.old fault) }
        ensures refused { OnErr result (self.new ≡ self.old) }
    {
        self.bus.inject(fault)
    }

    /// Makes the bus's `seal`, and keeps what is heard in its last sealed window.
    pub(crate) fn seal(&mut self) -> Result<(), BusError>
        ensures { Seals self.old result self.new }
    {
        // After a refusal it finds the same again, so it needs no case.
        let outcome = self.bus.seal();
        self.bus.hear_into(Channel::A, &mut self.heard_a);
        self.bus.hear_into(Channel::B, &mut self.heard_b);
        outcome
    }

    /// Makes the bus's `take_into`.
    pub(crate) fn take_into(
        &mut self,
        node: NodeId,
        number: u32,
        a: &mut Seen,
        b: &mut Seen,
    ) -> Result<(), BusError>
        ensures refusal { result_err result ≡ take_refusal self.old node number }
        ensures seen_on_a { OnOk result (a.new ≡ seen_last self.old channel.A node) }
        ensures seen_on_b { OnOk result (b.new ≡ seen_last self.old channel.B node) }
        ensures accepted { OnOk result (self.new ≡ take_done self.old node) }
        ensures refused { OnErr result (self.new ≡ self.old) }
        ensures refused_a { OnErr result (a.new ≡ a.old) }
        ensures refused_b { OnErr result (b.new ≡ b.old) }
    {
        self.bus.take_into(node, number, a, b)
    }

    /// Makes the bus's `take_lent`.
    pub(crate) fn take_lent(&mut self, node: NodeId, number: u32) -> Result<(), BusError>
        ensures refusal { result_err result ≡ take_refusal self.old node number }
        ensures accepted { OnOk result (self.new ≡ take_done self.old node) }
        ensures refused { OnErr result (self.new ≡ self.old) }
    {
        self.bus.take_lent(node, number)
    }

    /// Returns what is heard on the channel of the last sealed window.
    fn heard_on(&self, channel: Channel) -> &Heard
        ensures { result.now ≡ last_heard self.now channel }
    {
        match channel {
            Channel::A => &self.heard_a,
            Channel::B => &self.heard_b,
        }
    }

    /// Returns the node's observation on the channel of the last sealed window, or silence before the first one.
    pub(crate) fn sight(&self, node: NodeId, channel: Channel) -> Sight<'_>
        ensures { seen_in result ≡ seen_last self.now channel node }
    {
        self.bus.sight(node, channel, self.heard_on(channel))
    }

    /// Makes the bus's `advance`.
    pub(crate) fn advance(&mut self) -> Result<(), BusError>
        ensures refusal { result_err result ≡ advance_refusal self.old }
        ensures accepted { OnOk result (self.new ≡ advanced self.old) }
        ensures refused { OnErr result (self.new ≡ self.old) }
    {
        self.bus.advance()
    }
}
