//! The dynamic slots of a channel that have a sender in the cycle, and the equal shares that they have of a length.

ghost use Rattle.std.specs.Prelude.{◌≡◌, ◌*◌, ◌/◌, ◌<◌, ◌≤◌, ◌^◌, IfNone, IfSome};
ghost use Rattle.fr_picture.specs.Shares.{HasNoSender, HasSender, sender_count};
ghost use Rattle.fr_slots.specs.Numbers.{last_slot};

use fr_schedule::cluster::Cluster;
use fr_slots::channel::Channel;
use fr_slots::numbers::{Cycle, LAST_SLOT, NodeId, SlotId};

/// A dynamic slot, and the node that sends in it in the cycle.
#[derive(Clone, Copy)]
pub(crate) struct Sender {
    pub(crate) slot: SlotId,
    pub(crate) node: NodeId,
}

/// Returns the slot of this number with its sender, if it is a dynamic one that has a sender in the cycle.
pub(crate) fn sender_in(
    cluster: &Cluster,
    cycle: Cycle,
    channel: Channel,
    number: u16,
) -> Option<Sender>
    requires first { 1 ≤ number }
    requires last { number ≤ last_slot }
    ensures slot { IfSome result (λ s. s.slot ≡ number) }
    ensures sender { IfSome result (λ s. HasSender cluster.now cycle channel s.slot s.node) }
    ensures nobody { IfNone result (HasNoSender cluster.now cycle channel number) }
{
    let slot = SlotId::new(number)?;
    if cluster.params().is_static(slot) {
        return None;
    }
    let node = cluster.sender(cycle, slot, channel)?;
    Some(Sender { slot, node })
}

/// Returns the number of dynamic slots of the channel that have a sender in the cycle.
pub(crate) fn count_senders(cluster: &Cluster, cycle: Cycle, channel: Channel) -> u64
    ensures value { result ≡ sender_count cluster.now cycle channel }
    ensures few { result ≤ last_slot }
{
    let mut count: u64 = 0;
    for earlier in 0..LAST_SLOT {
        if sender_in(cluster, cycle, channel, earlier + 1).is_some() {
            count += 1;
        }
    }
    count
}

/// Returns the length of so many of the equal shares of a length.
pub(crate) fn length_of_shares(length: u64, count: u64, shares: u64) -> u64
    requires length { length < 2 ^ 47 }
    requires count { 1 ≤ count }
    requires shares { shares ≤ last_slot }
    ensures value { result ≡ shares * length / count }
    ensures small { result < 2 ^ 58 }
{
    shares * length / count
}
