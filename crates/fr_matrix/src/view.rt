//! The part of a run that is drawn.

use fr_slots::channel::Channel;
use fr_slots::numbers::NodeId;

/// The part of a run that is drawn (project-defined).
#[derive(Clone, Copy, PartialEq, Eq)]
pub struct View {
    /// The channel.
    pub channel: Channel,
    /// The node whose observations are drawn; `None` for what the bus carried.
    pub node: Option<NodeId>,
    /// The first cycle of the run that is drawn, counted from 0.
    pub from: u16,
    /// The first window of each cycle that is drawn, counted from 0.
    pub from_window: u16,
}
