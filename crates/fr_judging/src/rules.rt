//! The rules by which a recording is judged.

ghost use Rattle.std.specs.Prelude.{◌≡◌, ◌<◌, ◌^◌};
ghost use Rattle.fr_judging.specs.Rules.{due_at, judges, slot_time, cycle_time, has_sender_in, are_both, is_sent};
ghost use Rattle.fr_judging.specs.Rules.{sends_on, transmits_on, has_sender, owns_in, owns_some, is_clocked, unclocked};
ghost use Rattle.fr_judging.specs.Rules.{rules_of, no_clock_on, own_includes};
ghost use Rattle.std.specs.List.{list_any};

use fr_logged::due::{Due, due_of};
use fr_schedule::cluster::Cluster;
use fr_slots::channel::Channel;
use fr_slots::numbers::{CYCLES, Cycle, SlotId};
use fr_slots::params::Params;
use fr_slots::plan::{Buffer, NodePlan, Own};

/// The rules by which a recording is judged.
#[derive(Drop)]
pub struct Rules {
    pub cluster: Cluster,
    /// The most lines of each name that are told.
    pub most: u64,
    /// The recording begins and ends with whole cycles.
    pub whole: bool,
    /// The only channel that is judged, if there is one.
    pub only: Option<Channel>,
    /// The length of a macrotick in nanoseconds, 0 if times aren't judged.
    pub macrotick: u32,
    /// A node sends on channel A.
    pub sends_a: bool,
    /// A node sends on channel B.
    pub sends_b: bool,
}

/// Returns whether a node has an ownership line for the channel.
fn owns_on(plan: &NodePlan, channel: Channel) -> bool
    ensures { result ≡ list_any (own_includes channel) plan.now.owned }
{
    let owned = plan.owned();
    owned.iter().any(|own| own.channels.includes(channel))
}

/// Returns whether a node has a dynamic transmit buffer for the channel.
fn has_buffer_on(params: &Params, plan: &NodePlan, channel: Channel) -> bool
    ensures { result ≡ list_any (transmits_on params.now channel) plan.now.buffers }
{
    let buffers = plan.buffers();
    buffers
        .iter()
        .any(|buffer| transmits_on(params, buffer, channel))
}

/// Returns whether a node has an ownership line or a dynamic transmit buffer for the channel.
fn sends_on(params: &Params, plan: &NodePlan, channel: Channel) -> bool
    ensures { result ≡ sends_on params.now channel plan.now }
{
    owns_on(plan, channel) || has_buffer_on(params, plan, channel)
}

/// Returns whether a buffer transmits in a dynamic slot on the channel.
fn transmits_on(params: &Params, buffer: &Buffer, channel: Channel) -> bool
    ensures { result ≡ transmits_on params.now channel buffer.now }
{
    buffer.transmits()
        && !params.is_static(buffer.filter.slot)
        && buffer.filter.channels.includes(channel)
}

/// Returns whether a node sends on the channel.
fn has_sender(cluster: &Cluster, channel: Channel) -> bool
    ensures { result ≡ has_sender cluster.now channel }
{
    let params = cluster.params();
    let plans = cluster.plans();
    plans.iter().any(|plan| sends_on(params, plan, channel))
}

/// Returns whether an ownership line is for the channel in the cycle.
fn owns_in(own: &Own, channel: Channel, cycle: Cycle) -> bool
    ensures { result ≡ owns_in channel cycle own.now }
{
    own.channels.includes(channel) && own.cycles.admits(cycle)
}

/// Returns whether a node owns a static slot on the channel in the cycle.
fn owns_some(plan: &NodePlan, channel: Channel, cycle: Cycle) -> bool
    ensures { result ≡ owns_some channel cycle plan.now }
{
    let owned = plan.owned();
    owned.iter().any(|own| owns_in(own, channel, cycle))
}

/// Returns whether a static slot has an owner on the channel in the cycle.
fn is_clocked(cluster: &Cluster, channel: Channel, cycle: Cycle) -> bool
    ensures { result ≡ is_clocked cluster.now channel cycle }
{
    let plans = cluster.plans();
    plans.iter().any(|plan| owns_some(plan, channel, cycle))
}

/// Returns the first cycle in which no static slot has an owner on the channel.
fn unclocked(cluster: &Cluster, channel: Channel) -> Option<Cycle>
    ensures { result ≡ unclocked cluster.now channel 0 64 }
{
    for number in 0..CYCLES {
        let cycle = Cycle::from_bits(number);
        if !is_clocked(cluster, channel, cycle) {
            return Some(cycle);
        }
    }
    None
}

impl Rules {
    /// Returns the rules of a judgement by this cluster.
    ///
    /// `most` bounds the lines of each name that are told, `only` is the only channel that is judged, and `macrotick`
    /// is in nanoseconds, 0 if times aren't judged.
    #[tactic(auto, unfolding(crate::specs::Rules::rules_of))]
    pub fn new(
        cluster: Cluster,
        most: u64,
        whole: bool,
        only: Option<Channel>,
        macrotick: u32,
    ) -> Rules
        ensures { result ≡ rules_of cluster most whole only macrotick }
    {
        let sends_a = has_sender(&cluster, Channel::A);
        let sends_b = has_sender(&cluster, Channel::B);
        Rules {
            cluster,
            most,
            whole,
            only,
            macrotick,
            sends_a,
            sends_b,
        }
    }

    /// Returns the first cycle in which no static slot has an owner on a channel that is judged and has a sender.
    pub fn no_clock(&self, channel: Channel) -> Option<Cycle>
        ensures { result ≡ no_clock_on self.now channel }
    {
        if self.judges(channel) && self.has_sender(channel) {
            unclocked(&self.cluster, channel)
        } else {
            None
        }
    }

    /// Returns whether the channel is judged.
    pub fn judges(&self, channel: Channel) -> bool
        ensures { result ≡ judges self.now channel }
    {
        match self.only {
            None => true,
            Some(only) => only == channel,
        }
    }

    /// Returns whether a node sends on the channel.
    pub fn has_sender(&self, channel: Channel) -> bool
        ensures { result ≡ has_sender_in self.now channel }
    {
        match channel {
            Channel::A => self.sends_a,
            Channel::B => self.sends_b,
        }
    }

    /// Returns whether both channels have a sender and are judged.
    pub fn are_both(&self) -> bool
        ensures { result ≡ are_both self.now }
    {
        self.judges(Channel::A) && self.sends_a && (self.judges(Channel::B) && self.sends_b)
    }

    /// Returns whether the slot has a sender on the channel in the cycle.
    pub fn is_sent(&self, slot: u16, channel: Channel, cycle: Cycle) -> bool
        ensures { result ≡ is_sent self.now slot channel cycle }
    {
        match SlotId::new(slot) {
            Some(slot) => self.cluster.sender(cycle, slot, channel).is_some(),
            None => false,
        }
    }

    /// Returns what may be sent in the slot of this number, if anything.
    pub fn due(&self, slot: u32, channel: Channel, cycle: Cycle) -> Option<Due>
        ensures { result ≡ due_at self.now.cluster slot channel cycle }
    {
        if slot > 2047 {
            return None;
        }
        match SlotId::new(slot as u16) {
            Some(slot) => due_of(&self.cluster, slot, channel, cycle),
            None => None,
        }
    }

    /// Returns the number of the last static slot.
    pub fn static_slots(&self) -> u32
        ensures value { result ≡ self.now.cluster.params.static_slots }
        ensures few { result < 2 ^ 16 }
    {
        u32::from(self.cluster.params().static_slots)
    }

    /// Returns the length of a static slot in nanoseconds.
    pub fn slot_time(&self) -> u64
        ensures value { result ≡ slot_time self.now }
        ensures few { result < 2 ^ 48 }
    {
        u64::from(self.cluster.params().static_mt) * u64::from(self.macrotick)
    }

    /// Returns the length of a cycle in nanoseconds.
    pub fn cycle_time(&self) -> u64
        ensures value { result ≡ cycle_time self.now }
        ensures few { result < 2 ^ 48 }
        ensures some { 0 < self.now.macrotick → 0 < result }
    {
        u64::from(self.cluster.params().cycle_mt) * u64::from(self.macrotick)
    }
}
