//! Observations of a node on a channel in a slot.

ghost use Rattle.std.specs.Prelude.{◌≡◌};

use fr_frame::frame::{Bytes, duplicate_bytes};

/// A node's observation of the transmissions that reached a channel in one slot (project-defined).
///
/// The type parameter is the form of the bytes: `Seen` owns them, and a [`LentSeen`] borrows them.
#[derive(Drop, Clone, Copy, PartialEq, Eq)]
pub enum Seen<B = Bytes> {
    /// No transmission, or the channel has no slot.
    Silence,
    /// Only the node's own transmission.
    Own,
    /// Several transmissions, with the node's own among them.
    Conflict,
    /// Several transmissions of other nodes.
    Noise,
    /// Only one of another node, too long for its static slot or for the rest of the dynamic segment.
    Overrun,
    /// Only one of another node, with these bytes, which needn't be a frame.
    Bytes(B),
}

/// An observation that borrows its bytes, so reading it copies none of them.
pub type LentSeen<'a> = Seen<&'a [u8]>;

impl Seen {
    /// Returns a copy of the observation.
    pub fn duplicate(&self) -> Seen
        ensures { result ≡ self.now }
    {
        match self {
            Seen::Silence => Seen::Silence,
            Seen::Own => Seen::Own,
            Seen::Conflict => Seen::Conflict,
            Seen::Noise => Seen::Noise,
            Seen::Overrun => Seen::Overrun,
            Seen::Bytes(bytes) => Seen::Bytes(duplicate_bytes(bytes)),
        }
    }
}
