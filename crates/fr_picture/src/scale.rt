//! The places of a picture.

ghost use Rattle.std.specs.Prelude.{◌≡◌, ◌<◌, ◌^◌};
ghost use Rattle.fr_picture.specs.Places.{across, extent, row_of};

use fr_slots::channel::Channel;
use fr_slots::params::Params;

/// The distance of the beginning of a cycle from the left.
pub const LEFT: u64 = 1400;

/// The length of a cycle.
pub const LENGTH: u64 = 10_000;

/// The height of the row of a channel.
pub const CHANNEL_HEIGHT: u64 = 420;

/// The length of a box that has room for a number.
pub const NUMBER_LENGTH: u64 = 150;

/// Returns the distance of a macrotick of the cycle from the left.
#[tactic(auto, unfolding(crate::specs::Places::across))]
pub fn across(params: &Params, macrotick: u32) -> u64
    ensures value { result ≡ across params.now macrotick }
    ensures small { result < 2 ^ 47 }
{
    LEFT + u64::from(macrotick) * LENGTH / u64::from(params.cycle_mt)
}

/// Returns the length of the box of an interval, at least 1.
#[tactic(auto, unfolding(crate::specs::Places::extent))]
pub fn extent(params: &Params, start: u32, end: u32) -> u64
    ensures value { result ≡ extent params.now start end }
    ensures small { result < 2 ^ 47 }
{
    across(params, end)
        .saturating_sub(across(params, start))
        .max(1)
}

/// Returns the distance of the row of a channel from the top.
#[tactic(auto, unfolding(crate::specs::Places::row_of))]
pub fn row_of(channel: Channel) -> u64
    ensures value { result ≡ row_of channel }
    ensures small { result < 2000 }
{
    match channel {
        Channel::A => 1000,
        Channel::B => 1480,
    }
}
