//! Frames that are read in place, among their bytes.

use fr_slots::numbers::Cycle;
use std::marker::Model;

// Passed by value, a frame was copied ten times between the decoder and the interface. `decode` stays for callers that
// keep a frame.
/// A frame whose payload stays among the bytes that were decoded. So no payload is copied for a frame that isn't kept.
#[derive(Drop)]
pub struct LentFrame<'a> {
    /// The payload preamble indicator, which is carried and not interpreted.
    pub preamble: bool,
    /// The null frame indicator: true for a data frame, false if the payload has no valid data.
    pub has_data: bool,
    /// The sync frame indicator.
    pub sync: bool,
    /// The startup frame indicator.
    pub startup: bool,
    /// The frame ID, 0 to 2047.
    pub id: u16,
    // The payload comes last, so that no padding is copied behind it.
    /// The cycle count.
    pub cycle: Cycle,
    /// The payload, also that of a null frame: an even number of bytes, at most 254.
    pub payload: &'a [u8],
}

impl<'a> Model for LentFrame<'a> {
    ghost use Rattle.std.specs.Prelude.{◌<◌, ◌^◌};
    ghost use Rattle.fr_frame.specs.Fields.{Fields};
    ghost use Rattle.fr_frame.specs.Payload.{IsPayload};

    ghost Value = { Fields };

    ghost view = { λ f. record {
      preamble = f.preamble;
      has_data = f.has_data;
      sync = f.sync;
      startup = f.startup;
      id = f.id;
      payload = f.payload.now;
      cycle = f.cycle;
    } };

    ghost invariant = { λ f. (f.id < 2 ^ 11) × IsPayload f.payload.now };
}
