//! Frames, and the bytes in which they are sent.

ghost use Rattle.std.specs.Prelude.{◌≡◌};

use crate::lent::LentFrame;
use crate::payload::{PAYLOAD_BYTES, Payload};
use arrayvec::ArrayVec;
use fr_slots::numbers::Cycle;
use std::marker::Model;

/// The bytes of a header, and those of the trailer with the frame CRC (chapter 4).
pub(crate) const HEADER_BYTES: usize = 5;

pub(crate) const TRAILER_BYTES: usize = 3;

/// The greatest length of a frame in bytes (chapter 4).
pub const FRAME_BYTES: usize = HEADER_BYTES + PAYLOAD_BYTES + TRAILER_BYTES;

/// The bytes that are sent on a channel in one slot: at most those of the longest frame.
pub type Bytes = ArrayVec<u8, FRAME_BYTES>;

/// Returns a copy of the bytes.
pub fn duplicate_bytes(bytes: &Bytes) -> Bytes
    ensures { result ≡ bytes.now }
{
    let mut copy = Bytes::new();
    let outcome = copy.try_extend_from_slice(bytes.as_slice());
    let fits = outcome.is_ok();
    prove!(fits);
    copy
}

/// The fields of a frame (chapter 4).
#[derive(Drop, PartialEq, Eq)]
pub struct Frame {
    /// The payload preamble indicator, which is carried and not interpreted.
    pub preamble: bool,
    /// The null frame indicator: true for a data frame, false if the payload has no valid data.
    pub has_data: bool,
    /// The sync frame indicator.
    pub sync: bool,
    /// The startup frame indicator.
    pub startup: bool,
    /// The frame ID, 0 to 2047: the slot in which the frame is sent. No slot has ID 0, but it can be spelled.
    pub id: u16,
    /// The payload, also that of a null frame.
    pub payload: Payload,
    /// The cycle count.
    pub cycle: Cycle,
}

impl Model for Frame {
    ghost use Rattle.std.specs.Prelude.{◌<◌, ◌^◌};
    ghost use Rattle.fr_frame.specs.Fields.{Fields};

    ghost Value = { Fields };

    ghost view = { λ f. record {
      preamble = f.preamble;
      has_data = f.has_data;
      sync = f.sync;
      startup = f.startup;
      id = f.id;
      payload = f.payload;
      cycle = f.cycle;
    } };

    ghost invariant = { λ f. f.id < 2 ^ 11 };

    ghost inverse = { λ f. record {
      preamble = f.preamble;
      has_data = f.has_data;
      sync = f.sync;
      startup = f.startup;
      id = f.id;
      payload = f.payload;
      cycle = f.cycle;
    } };
}

impl Frame {
    /// Returns a copy of the frame.
    pub fn duplicate(&self) -> Frame
        ensures { result ≡ self.now }
    {
        Frame {
            preamble: self.preamble,
            has_data: self.has_data,
            sync: self.sync,
            startup: self.startup,
            id: self.id,
            payload: self.payload.duplicate(),
            cycle: self.cycle,
        }
    }

    /// Returns the lent frame, with a payload of its own.
    pub fn from_lent(lent: &LentFrame<'_>) -> Frame
        ensures { result ≡ lent.now }
    {
        Frame {
            preamble: lent.preamble,
            has_data: lent.has_data,
            sync: lent.sync,
            startup: lent.startup,
            id: lent.id,
            payload: Payload::of(lent.payload),
            cycle: lent.cycle,
        }
    }

    /// Makes this frame equal to the lent one, whose payload is copied over the old one.
    pub fn replace_by(&mut self, lent: &LentFrame<'_>)
        ensures { self.new ≡ lent.now }
    {
        self.preamble = lent.preamble;
        self.has_data = lent.has_data;
        self.sync = lent.sync;
        self.startup = lent.startup;
        self.id = lent.id;
        self.payload.replace_by(lent.payload);
        self.cycle = lent.cycle;
    }
}
