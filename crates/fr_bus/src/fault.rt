//! Faults of a window.

ghost use Rattle.std.specs.Prelude.{◌≡◌};

use fr_frame::frame::{Bytes, duplicate_bytes};
use fr_slots::channel::Channel;
use fr_slots::numbers::NodeId;

/// A fault of the open window alone (project-defined). It has no effect on a channel without a slot.
#[derive(Drop, PartialEq, Eq)]
pub enum Fault {
    /// These bytes, which the node sends on the channel beside its offer. Without bytes it sends nothing more.
    Babble {
        node: NodeId,
        channel: Channel,
        bytes: Bytes,
    },
    /// The loss of the node's offer on the channel, but not of its babble.
    Mute {
        node: NodeId,
        channel: Channel,
    },
    /// One flipped bit, if exactly one transmission passes on the channel. It is counted from the most significant bit
    /// of the first byte. A bit after the last byte has no effect.
    Corrupt {
        channel: Channel,
        bit: u16,
    },
}

impl Fault {
    /// Returns a copy of the fault.
    pub fn duplicate(&self) -> Fault
        ensures { result ≡ self.now }
    {
        match self {
            Fault::Babble {
                node,
                channel,
                bytes,
            } => Fault::Babble {
                node: *node,
                channel: *channel,
                bytes: duplicate_bytes(bytes),
            },
            Fault::Mute { node, channel } => Fault::Mute {
                node: *node,
                channel: *channel,
            },
            Fault::Corrupt { channel, bit } => Fault::Corrupt {
                channel: *channel,
                bit: *bit,
            },
        }
    }
}
