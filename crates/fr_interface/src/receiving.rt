//! The receive buffers and the receive FIFO of a node.

ghost use Rattle.std.specs.Prelude.{◌≡◌, [], None, map, slice_get, option_map, IfOk};
ghost use Rattle.std.specs.Option.{option_and_then};
ghost use Rattle.fr_buffers.specs.Waiting.{without_oldest};
ghost use Rattle.fr_interface.specs.Known.{empty_queue};
ghost use Rattle.fr_journal.specs.Held.{origin_of};

use crate::source::Source;
use fr_buffers::queue::ReceiveQueue;
use fr_buffers::receive::RxBuffer;
use fr_journal::entry::Arrival;
use fr_slots::plan::{Buffer, Queue};
use std::alloc::{AllocError, Global};

/// Returns an empty buffer for each line.
pub(crate) fn receive_buffers(alloc: Global, lines: &[Buffer]) -> Result<Vec<RxBuffer>, AllocError>
    ensures { IfOk result (λ v. v.items ≡ map (λ _. None) lines.now) }
{
    lines.iter().map(|_line| RxBuffer::new()).collect(alloc)
}

/// Returns the empty receive FIFO of the plan's line, if it has one.
pub(crate) fn receive_queue(
    alloc: Global,
    line: Option<Queue>,
) -> Result<Option<ReceiveQueue>, AllocError>
    ensures { IfOk result (λ q. q ≡ option_map empty_queue line) }
{
    match line {
        Some(line) => {
            let queue = ReceiveQueue::new(alloc, line.capacity)?;
            Ok(Some(queue))
        }
        None => Ok(None),
    }
}

/// Returns the frame in the buffer of this number, with its origin.
pub(crate) fn arrival_at(buffers: &[RxBuffer], number: u8) -> Option<Arrival>
    ensures { result ≡ option_and_then (λ h. h) (slice_get buffers.now number) }
{
    let arrival = buffers.get(usize::from(number))?.held()?;
    Some(copy_of(arrival))
}

/// Returns a copy of the arrival.
fn copy_of(arrival: &Arrival) -> Arrival
    ensures { result ≡ arrival.now }
{
    Arrival {
        origin: arrival.origin,
        cycle: arrival.cycle,
        frame: arrival.frame.duplicate(),
    }
}

/// Returns the source of the content of the buffer of this number.
pub(crate) fn observed_at(buffers: &[RxBuffer], number: u8) -> Option<Source>
    ensures { result ≡ option_map (λ a. Source.Observed (origin_of a))
        (option_and_then (λ h. h) (slice_get buffers.now number)) }
{
    let arrival = buffers.get(usize::from(number))?.held()?;
    Some(Source::Observed(arrival.origin))
}

/// Returns the oldest frame of the receive FIFO, if there is one, and leaves it there.
pub(crate) fn first_of(queue: &Option<ReceiveQueue>) -> Option<Arrival>
    ensures { result ≡ option_and_then (λ w. slice_get w.frames 0) queue.now }
{
    let arrival = queue.as_ref()?.oldest()?;
    Some(copy_of(arrival))
}

/// Pops the oldest frame of the receive FIFO, if there is one.
pub(crate) fn pop_from(queue: &mut Option<ReceiveQueue>) -> Option<Arrival>
    ensures oldest { result ≡ option_and_then (λ w. slice_get w.frames 0) queue.old }
    ensures left { queue.new ≡ option_map without_oldest queue.old }
{
    queue.as_mut()?.pop()
}
