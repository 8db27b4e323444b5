//! The status of a slot on a channel, by the observation there.

ghost use Rattle.std.specs.Prelude.{◌≡◌, ◌≤◌, IfSome, IsSome};
ghost use Rattle.std.specs.Option.{is_some};
ghost use Rattle.fr_slots.specs.declared.channel.Channel.TheVariants as Channel;
ghost use Rattle.fr_status.specs.Checks.{AreLongTwins, IsCheckSeen};
ghost use Rattle.fr_status.specs.Status.{frame_in, status_in, bits_set, passes, fits_static_slot, fits_dynamic_slot};

use crate::seen::Seen;
use fr_frame::decode::{checks_of_twins, decode_lent_by};
use fr_frame::frame::Frame;
use fr_frame::lent::LentFrame;
use fr_slots::channel::Channel;
use fr_slots::numbers::{Cycle, SlotId};
use fr_slots::params::Params;

/// The status of a slot on a channel: five bits (chapter 6), at most one set (project-defined).
#[derive(Clone, Copy, PartialEq, Eq)]
pub struct SlotStatus {
    /// A received frame that passes the slot's checks, a data frame or a null frame.
    pub valid: bool,
    /// Received bytes that aren't a frame, or several transmissions of other nodes.
    pub syntax: bool,
    /// A received frame that fails the slot's checks.
    pub content: bool,
    /// A transmission too long for its static slot or for the rest of the dynamic segment.
    pub boundary: bool,
    /// A collision of the node's own transmission with another one.
    pub conflict: bool,
}

const NO_BIT: SlotStatus = SlotStatus {
    valid: false,
    syntax: false,
    content: false,
    boundary: false,
    conflict: false,
};

const VALID_FRAME: SlotStatus = SlotStatus {
    valid: true,
    ..NO_BIT
};

const SYNTAX_ERROR: SlotStatus = SlotStatus {
    syntax: true,
    ..NO_BIT
};

const CONTENT_ERROR: SlotStatus = SlotStatus {
    content: true,
    ..NO_BIT
};

const BOUNDARY_VIOLATION: SlotStatus = SlotStatus {
    boundary: true,
    ..NO_BIT
};

const TRANSMISSION_CONFLICT: SlotStatus = SlotStatus {
    conflict: true,
    ..NO_BIT
};

/// Returns the status of a slot on a channel in a cycle, and the frame if it is valid.
///
/// The bits are those of chapter 6. The bit of each observation is project-defined. Bytes that aren't a frame on this
/// channel are a syntax error. A frame that fails one of these checks is a content error:
///
/// - It has the slot's frame ID and the cycle's count.
/// - In a static slot it has the payload length of all static frames. A startup indicator comes with a sync indicator.
/// - In a dynamic slot it has neither of these indicators, and it is no null frame.
pub fn status_of(
    params: &Params,
    cycle: Cycle,
    slot: SlotId,
    channel: Channel,
    seen: &Seen,
) -> (SlotStatus, Option<Frame>)
    ensures status { result.0 ≡ status_in params.now cycle slot channel seen.now }
    ensures frame { result.1 ≡ frame_in params.now cycle slot channel seen.now }
    ensures only_if_valid { result.0.valid ≡ is_some result.1 }
    ensures at_most_one { bits_set result.0 ≤ 1 }
{
    let (status, frame) = lent_status_of(params, cycle, slot, channel, seen);
    match frame {
        Some(frame) => (status, Some(Frame::from_lent(&frame))),
        None => (status, None),
    }
}

/// Returns the same as [`status_of`], with the frame's payload left among the observed bytes.
pub fn lent_status_of<'a>(
    params: &Params,
    cycle: Cycle,
    slot: SlotId,
    channel: Channel,
    seen: &'a Seen,
) -> (SlotStatus, Option<LentFrame<'a>>)
    ensures status { result.0 ≡ status_in params.now cycle slot channel seen.now }
    ensures frame { result.1 ≡ frame_in params.now cycle slot channel seen.now }
    ensures only_if_valid { result.0.valid ≡ is_some result.1 }
    ensures at_most_one { bits_set result.0 ≤ 1 }
{
    lent_status_by(params, cycle, slot, channel, seen, None)
}

/// Returns the same as [`lent_status_of`], without computing a frame CRC that is known already.
///
/// `check` is the calculated frame CRC of the observed bytes on this channel, if it is known.
#[tactic(auto, unfolding(crate::specs::Status::status_in, crate::specs::Status::frame_in))]
pub fn lent_status_by<'a>(
    params: &Params,
    cycle: Cycle,
    slot: SlotId,
    channel: Channel,
    seen: &'a Seen,
    check: Option<u32>,
) -> (SlotStatus, Option<LentFrame<'a>>)
    requires { IfSome check (λ n. IsCheckSeen channel seen.now n) }
    ensures status { result.0 ≡ status_in params.now cycle slot channel seen.now }
    ensures frame { result.1 ≡ frame_in params.now cycle slot channel seen.now }
    ensures only_if_valid { result.0.valid ≡ is_some result.1 }
    ensures at_most_one { bits_set result.0 ≤ 1 }
{
    match seen {
        Seen::Silence | Seen::Own => (NO_BIT, None),
        Seen::Conflict => (TRANSMISSION_CONFLICT, None),
        Seen::Noise => (SYNTAX_ERROR, None),
        Seen::Overrun => (BOUNDARY_VIOLATION, None),
        Seen::Bytes(bytes) => match decode_lent_by(bytes.as_slice(), channel, check) {
            Ok(frame) => {
                if passes(params, cycle, slot, &frame) {
                    (VALID_FRAME, Some(frame))
                } else {
                    (CONTENT_ERROR, None)
                }
            }
            Err(_) => (SYNTAX_ERROR, None),
        },
    }
}

/// Returns the calculated frame CRCs of twins: of the observations on channel A and on channel B.
///
/// Twins are at least 40 bytes on each channel, as many on both, that differ at most in the trailer. `None` for all
/// other observations.
#[tactic(auto, unfolding(crate::specs::Checks::IsCheckSeen, crate::specs::Checks::AreLongTwins))]
pub fn checks_seen(a: &Seen, b: &Seen) -> Option<(u32, u32)>
    ensures on_a { IfSome result (λ checks. IsCheckSeen Channel.A a.now checks.0) }
    ensures on_b { IfSome result (λ checks. IsCheckSeen Channel.B b.now checks.1) }
    ensures twins { IfSome result (λ _. AreLongTwins a.now b.now) }
    ensures only { AreLongTwins a.now b.now → IsSome result }
{
    match (a, b) {
        (Seen::Bytes(a), Seen::Bytes(b)) => checks_of_twins(a.as_slice(), b.as_slice()),
        _ => None,
    }
}

/// Returns whether the frame passes the checks of its slot.
fn passes(params: &Params, cycle: Cycle, slot: SlotId, frame: &LentFrame<'_>) -> bool
    ensures { result ≡ passes params.now cycle slot frame.now }
{
    if params.is_static(slot) {
        fits_static_slot(params, cycle, slot, frame)
    } else {
        fits_dynamic_slot(cycle, slot, frame)
    }
}

/// Returns whether the frame passes the checks of a static slot.
fn fits_static_slot(params: &Params, cycle: Cycle, slot: SlotId, frame: &LentFrame<'_>) -> bool
    ensures { result ≡ fits_static_slot params.now cycle slot frame.now }
{
    frame.payload.len() == 2 * usize::from(params.static_words)
        && frame.id == slot.number()
        && frame.cycle == cycle
        && (frame.sync || !frame.startup)
}

/// Returns whether the frame passes the checks of a dynamic slot.
fn fits_dynamic_slot(cycle: Cycle, slot: SlotId, frame: &LentFrame<'_>) -> bool
    ensures { result ≡ fits_dynamic_slot cycle slot frame.now }
{
    frame.id == slot.number()
        && frame.cycle == cycle
        && !frame.sync
        && !frame.startup
        && frame.has_data
}
