//! The transmit buffers of a node: the one that offers a commit in a window, and its state after sending.

ghost use Rattle.std.specs.Prelude.{◌≡◌, ◌+◌, ◌<◌, ◌≤◌, ◌^◌, length, map, slice_get, option_map, IfOk, IfSome};
ghost use Rattle.std.specs.Option.{option_and_then};
ghost use Rattle.fr_buffers.specs.Transmitting.{new_transmitter, with_commit, entry_of, after_withdraw};
ghost use Rattle.fr_interface.specs.Known.{change_at};
ghost use Rattle.fr_interface.specs.Sending.{ready_at, sender_on, held_payload, payload_at, send_offered, after_sender};
ghost use Rattle.fr_interface.specs.Sending.{pending_at};

use crate::index::IndexedPlan;
use crate::offers::{may_begin, transmitter};
use crate::source::Source;
use fr_buffers::transmit::TxBuffer;
use fr_frame::payload::Payload;
use fr_journal::fate::Tally;
use fr_slots::channel::Channel;
use fr_slots::plan::Buffer;
use fr_slots::window::Window;
use std::alloc::{AllocError, Global};

/// The transmit buffer that offers a commit in a window on a channel, and that commit.
#[derive(Clone, Copy, PartialEq, Eq)]
pub(crate) struct Sender {
    /// The number of the buffer.
    pub buffer: u8,
    /// The number of the commit's entry.
    pub commit: u32,
}

/// Returns a buffer without a commit for each line.
pub(crate) fn transmit_buffers(alloc: Global, lines: &[Buffer]) -> Result<Vec<TxBuffer>, AllocError>
    ensures { IfOk result (λ v. v.items ≡ map (λ b. new_transmitter b.mode) lines.now) }
{
    lines
        .iter()
        .map(|line| TxBuffer::new(line.mode))
        .collect(alloc)
}

/// Returns the source of the content of the buffer of this number.
pub(crate) fn commit_at(buffers: &[TxBuffer], number: u8) -> Option<Source>
    ensures { result ≡ option_map Source.Commit (option_and_then entry_of (slice_get buffers.now number)) }
{
    let entry = buffers.get(usize::from(number))?.entry()?;
    Some(Source::Commit(entry))
}

/// Returns the pending commit of the buffer of this number.
pub(crate) fn pending_at(buffers: &[TxBuffer], number: u8) -> Option<u32>
    ensures { result ≡ pending_at buffers.now number }
{
    buffers.get(usize::from(number))?.pending()
}

/// Returns the tally of the commits on the buffer of this number.
pub(crate) fn tally_at(buffers: &[TxBuffer], number: u8) -> Option<Tally>
    ensures value { result ≡ option_map (λ b. b.tally) (slice_get buffers.now number) }
    ensures fates { IfSome result (λ t. t.committed ≡ t.sent + t.overwritten + t.pending + t.withdrawn) }
    ensures one_pending { IfSome result (λ t. t.pending ≤ 1) }
{
    let buffer = buffers.get(usize::from(number))?;
    Some(buffer.tally())
}

/// Returns the commit that the buffer of this number offers.
fn ready_at(buffers: &[TxBuffer], number: u8) -> Option<u32>
    ensures { result ≡ ready_at buffers.now number }
{
    buffers.get(usize::from(number))?.offers()
}

/// Returns the buffer and its commit that are offered in the window on the channel.
pub(crate) fn sender_on(
    plan: &IndexedPlan,
    buffers: &[TxBuffer],
    window: &Window,
    channel: Channel,
) -> Option<Sender>
    ensures { result ≡ sender_on plan.now buffers.now window.now channel }
{
    if window.slot(channel).is_none() || !may_begin(plan, window, channel) {
        return None;
    }
    let buffer = transmitter(plan, window, channel)?;
    let commit = ready_at(buffers, buffer)?;
    Some(Sender { buffer, commit })
}

/// Returns the payload that the buffer of this number holds.
pub(crate) fn payload_at(buffers: &[TxBuffer], number: u8) -> Payload
    ensures { result ≡ payload_at buffers.now number }
{
    match buffers.get(usize::from(number)) {
        Some(buffer) => held_payload(buffer),
        None => Payload::default(),
    }
}

/// Returns the payload that the buffer holds.
fn held_payload(buffer: &TxBuffer) -> Payload
    ensures { result ≡ held_payload buffer.now }
{
    match buffer.payload() {
        Some(payload) => payload.duplicate(),
        None => Payload::default(),
    }
}

/// Gives the buffer of this number the commit of this entry.
pub(crate) fn commit_to(buffers: &mut [TxBuffer], number: u8, entry: u32, payload: &Payload)
    requires there { number < length buffers.old }
    requires few { IfSome (slice_get buffers.old number) (λ b. b.tally.committed + 1 < 2 ^ 32) }
    ensures { buffers.new
        ≡ change_at (λ b. with_commit b (record { entry = entry; payload = payload.now })) buffers.old number }
{
    let buffer = &mut buffers[usize::from(number)];
    buffer.commit(entry, payload);
}

/// Withdraws the pending commit of the buffer of this number, if there is one.
pub(crate) fn withdraw_from(buffers: &mut [TxBuffer], number: u8) -> Option<u32>
    ensures answer { result ≡ pending_at buffers.old number }
    ensures fits { IfSome result (λ commit. commit < 2 ^ 32) }
    ensures buffers { buffers.new ≡ change_at after_withdraw buffers.old number }
{
    let place = usize::from(number);
    if place >= buffers.len() {
        return None;
    }
    let buffer = &mut buffers[place];
    buffer.withdraw()
}

/// Marks the sender's commit as sent.
pub(crate) fn send_from(buffers: &mut [TxBuffer], sender: Option<Sender>)
    ensures { buffers.new ≡ after_sender buffers.old sender }
{
    let Some(sender) = sender else {
        return;
    };
    let place = usize::from(sender.buffer);
    if place < buffers.len() {
        let buffer = &mut buffers[place];
        send_offered(buffer);
    }
}

/// Marks the buffer's offered commit as sent, if there is one.
fn send_offered(buffer: &mut TxBuffer)
    ensures { buffer.new ≡ send_offered buffer.old }
{
    if buffer.offers().is_some() {
        buffer.send();
    }
}
