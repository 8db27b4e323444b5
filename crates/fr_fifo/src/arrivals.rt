//! The frames that a receive FIFO stores.
ghost use Rattle.std.specs.Prelude.{◌≡◌, Some};
ghost use Rattle.std.specs.Option.{option_and_then};
ghost use Rattle.fr_fifo.specs.FifoSteps.{frame_on};
ghost use Rattle.fr_journal.specs.Held.{data_frame_seen, with_data};

use fr_capture::taking::{Came, queue_takes};
use fr_frame::lent::LentFrame;
use fr_interface::interface::Interface;
use fr_slots::channel::Channel;
use fr_slots::params::Params;
use fr_slots::plan::Queue;
use fr_slots::window::Window;
use fr_status::seen::Seen;
use fr_status::status::lent_status_of;

/// Returns the frame, unless it is a null frame.
fn with_data(frame: Option<LentFrame<'_>>) -> Option<LentFrame<'_>>
    ensures { result ≡ option_and_then with_data frame.entry }
{
    match frame {
        Some(frame) if frame.has_data => Some(frame),
        _ => None,
    }
}

/// Returns the valid data frame that the node observed on the channel of a window.
fn data_frame_seen<'a>(
    params: &Params,
    window: &Window,
    channel: Channel,
    seen: &'a Seen,
) -> Option<LentFrame<'a>>
    ensures { result ≡ data_frame_seen params.now window.now channel seen.now }
{
    let slot = window.slot(channel)?;
    let (_, frame) = lent_status_of(params, window.cycle, slot, channel, seen);
    with_data(frame)
}

/// Returns the frame that the node's receive FIFO stores of an observation.
pub(crate) fn frame_on<'a>(
    interface: &Interface,
    queue: &Queue,
    window: &Window,
    channel: Channel,
    seen: &'a Seen,
) -> Option<LentFrame<'a>>
    requires { interface.now.plan.queue ≡ Some queue.now }
    ensures { result ≡ frame_on interface.now queue.now window.now channel seen.now }
{
    let frame = data_frame_seen(interface.params(), window, channel, seen);
    let came = Came {
        a: frame.is_some(),
        b: frame.is_some(),
    };
    if queue_takes(interface.plan(), window, came, channel) {
        frame
    } else {
        None
    }
}
