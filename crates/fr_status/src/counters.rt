//! The status counters of a node.

ghost use Rattle.std.specs.Prelude.{◌≡◌};
ghost use Rattle.fr_status.specs.Counting.{with_status, with_bits, HasRoom, FitsBits};

use crate::status::SlotStatus;
use fr_slots::channel::Channel;

/// The number of observed windows with each bit of the slot status, for channels A and B (chapter 6).
///
/// A channel has five counts: valid frames, syntax errors, content errors, boundary violations and transmission
/// conflicts, in this order.
#[derive(Clone, Copy, PartialEq, Eq)]
pub struct Counters {
    pub a: [u32; 5],
    pub b: [u32; 5],
}

impl Counters {
    /// The counters of no windows.
    pub const NONE: Counters = Counters {
        a: [0; 5],
        b: [0; 5],
    };

    /// Counts a slot of this status on the channel.
    ///
    /// Each count must fit 32 bits afterwards.
    pub fn count(&mut self, channel: Channel, status: &SlotStatus)
        requires { HasRoom self.old channel status.now }
        ensures { self.new ≡ with_status self.old channel status.now }
    {
        match channel {
            Channel::A => self.a = with_bits(self.a, status),
            Channel::B => self.b = with_bits(self.b, status),
        }
    }
}

/// Returns the counts of a channel with one more slot.
fn with_bits(counts: [u32; 5], status: &SlotStatus) -> [u32; 5]
    requires { FitsBits counts status.now }
    ensures { result ≡ with_bits counts status.now }
{
    [
        counts[0] + u32::from(status.valid),
        counts[1] + u32::from(status.syntax),
        counts[2] + u32::from(status.content),
        counts[3] + u32::from(status.boundary),
        counts[4] + u32::from(status.conflict),
    ]
}
