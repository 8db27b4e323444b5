//! Receive buffers.

ghost use Rattle.std.specs.Prelude.{◌≡◌, None, Some};
ghost use Rattle.std.specs.Option.{option_copied};
ghost use Rattle.fr_journal.specs.Held.{arrival_of};

use fr_frame::frame::Frame;
use fr_frame::lent::LentFrame;
use fr_journal::entry::{Arrival, Moment, Origin};
use fr_slots::channel::Channel;
use std::marker::Model;

/// The state of a receive buffer: the last frame that it stored (chapter 9).
#[derive(Drop)]
pub struct RxBuffer {
    held: Option<Arrival>,
}

impl Model for RxBuffer {
    ghost use Rattle.std.specs.Prelude.{Option};
    ghost use Rattle.fr_journal.specs.declared.entry.Arrival.{Arrival};

    ghost Value = { Option Arrival };

    ghost view = { λ b. b.held };
}

impl RxBuffer {
    /// Returns an empty buffer.
    pub fn new() -> RxBuffer
        ensures { result ≡ None }
    {
        RxBuffer { held: None }
    }

    /// Stores a frame in place of the one before. The entry of this moment observed it on the channel.
    pub fn store(&mut self, moment: Moment, channel: Channel, frame: &Frame)
        ensures { self.new ≡ Some (arrival_of moment channel frame.now) }
    {
        self.held = Some(arrived(moment, channel, frame.duplicate()));
    }

    /// Stores a lent frame by copying it over the one before.
    pub fn store_lent(&mut self, moment: Moment, channel: Channel, frame: &LentFrame<'_>)
        ensures { self.new ≡ Some (arrival_of moment channel frame.now) }
    {
        if let Some(arrival) = &mut self.held {
            replace(arrival, moment, channel, frame);
        } else {
            self.held = Some(arrived(moment, channel, Frame::from_lent(frame)));
        }
    }

    // The result is an `Arrival`, as in the definitions of the journal, and no tuple.
    /// Returns the stored frame, with its origin.
    pub fn held(&self) -> Option<&Arrival>
        ensures { option_copied result ≡ self.now }
    {
        self.held.as_ref()
    }
}

/// Returns the frame as it arrived at this moment on the channel.
pub(crate) fn arrived(moment: Moment, channel: Channel, frame: Frame) -> Arrival
    ensures { result ≡ arrival_of moment channel frame }
{
    Arrival {
        origin: Origin {
            entry: moment.entry,
            channel,
        },
        cycle: moment.cycle,
        frame,
    }
}

/// Replaces the arrival by this frame, of this moment on the channel.
fn replace(arrival: &mut Arrival, moment: Moment, channel: Channel, frame: &LentFrame<'_>)
    ensures { arrival.new ≡ arrival_of moment channel frame.now }
{
    arrival.origin = Origin {
        entry: moment.entry,
        channel,
    };
    arrival.cycle = moment.cycle;
    arrival.frame.replace_by(frame);
}
