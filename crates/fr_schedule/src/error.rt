//! The reasons to refuse a text as a cluster.

ghost use Rattle.std.specs.Prelude.{◌≡◌};
ghost use Rattle.fr_schedule.specs.declared.error.ConfigError.TheVariants as error;

use fr_params::error::ParamError;
use fr_slots::channel::Channel;
use fr_slots::numbers::{Cycle, NodeId, SlotId};
use std::alloc::AllocError;
use thiserror::Error;

/// Reasons to refuse a text as a cluster. Nodes and buffers have numbers, counted from 0 in the order of the file.
#[derive(Clone, Copy, Debug, PartialEq, Eq, Error)]
pub enum ConfigError {
    /// A text that isn't TOML.
    #[error("Toml")]
    Toml,
    /// A table `params` that gives no parameters.
    #[error("Params {0}")]
    Params(ParamError),
    /// A value of `guard` other than `"AB"`, `"A"`, `"B"` and `"none"`.
    #[error("BadGuard")]
    BadGuard,
    /// A value of `node` that isn't an array of 1 to 16.
    #[error("TooManyNodes")]
    TooManyNodes,
    /// A fault of the node's table, without those of its buffers. A key of the node, of one of its ownership lines or
    /// of its receive FIFO is missing or has a wrong value, or its buffers aren't an array of at most 64 tables.
    #[error("BadNode {}", .0.number())]
    BadNode(NodeId),
    /// A key of the buffer that is missing or has a wrong value.
    #[error("BadBuffer {} {}", .0.number(), .1)]
    BadBuffer(NodeId, u8),
    /// A static transmit buffer whose slot its node doesn't own. The node has to own it on all of the buffer's
    /// channels, in all cycles that the buffer admits (chapter 5; the division by cycles is project-defined).
    #[error("NotOwned {} {}", .0.number(), .1)]
    NotOwned(NodeId, u8),
    /// A dynamic transmit buffer for both channels (project-defined).
    #[error("DynamicBoth {} {}", .0.number(), .1)]
    DynamicBoth(NodeId, u8),
    /// Two ownership lines for the slot on the channel in the cycle, or two transmit buffers that admit it. They are of
    /// one node or of two (chapter 5; the division of a static slot by cycles is project-defined).
    #[error("Overlap {} {} {}", .0.number(), .1, .2.number())]
    Overlap(SlotId, Channel, Cycle),
    /// A dynamic transmit buffer whose frame could end after the dynamic segment (project-defined). The frame begins at
    /// pLatestTx of its node on its channel, and the minislots that stay idle after it don't count.
    #[error("TooLong {} {}", .0.number(), .1)]
    TooLong(NodeId, u8),
    /// An allocation that failed.
    #[error("Memory")]
    Memory,
}

impl From<AllocError> for ConfigError {
    ghost from_gives = { λ refused given. given ≡ error.Memory };

    fn from(_: AllocError) -> ConfigError {
        ConfigError::Memory
    }
}
