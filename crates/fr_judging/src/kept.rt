//! Frames that are kept in their place.

ghost use Rattle.std.specs.Prelude.{◌≡◌, ◌≤◌, length, take};
ghost use Rattle.fr_judging.specs.Judging.{no_frame};

use fr_frame::lent::LentFrame;
use fr_frame::payload::PAYLOAD_BYTES;
use fr_slots::numbers::Cycle;
use std::marker::Model;

// A `Frame` blanks its old payload before it gets another one, and has the length of its payload behind the bytes.
/// A frame that is kept in its place: the payload of the next one is copied over it.
#[derive(Drop)]
pub struct KeptFrame {
    preamble: bool,
    has_data: bool,
    sync: bool,
    startup: bool,
    id: u16,
    cycle: Cycle,
    /// The number of bytes of the payload.
    length: u8,
    bytes: [u8; PAYLOAD_BYTES],
}

impl Model for KeptFrame {
    ghost use Rattle.fr_frame.specs.Fields.{Fields};

    ghost Value = { Fields };

    ghost use Rattle.fr_judging.specs.KeptFields.{fields_in, HasFrame};

    ghost view = { fields_in };

    ghost invariant = { HasFrame };
}

/// Copies the bytes of a payload over others.
#[inline(always)]
fn copy_in(bytes: &mut [u8; PAYLOAD_BYTES], payload: &[u8])
    requires { length payload.now ≤ 254 }
    ensures { take (length payload.now) bytes.new ≡ payload.now }
{
    bytes[..payload.len()].copy_from_slice(payload);
}

impl KeptFrame {
    /// Returns a frame for a slot that had none yet.
    pub(crate) fn none() -> KeptFrame
        ensures { result ≡ no_frame }
    {
        KeptFrame {
            preamble: false,
            has_data: false,
            sync: false,
            startup: false,
            id: 0,
            cycle: Cycle::from_bits(0),
            length: 0,
            bytes: [0; PAYLOAD_BYTES],
        }
    }

    /// Returns whether it is a data frame.
    pub(crate) fn has_data(&self) -> bool
        ensures { result ≡ self.now.has_data }
    {
        self.has_data
    }

    /// Returns the payload.
    pub(crate) fn payload(&self) -> &[u8]
        ensures { result.now ≡ self.now.payload }
    {
        &self.bytes[..usize::from(self.length)]
    }

    /// Keeps the frame in place of the one before.
    #[inline(always)]
    pub(crate) fn keep(&mut self, frame: &LentFrame<'_>)
        ensures { self.new ≡ frame.now }
    {
        self.preamble = frame.preamble;
        self.has_data = frame.has_data;
        self.sync = frame.sync;
        self.startup = frame.startup;
        self.id = frame.id;
        self.cycle = frame.cycle;
        self.length = frame.payload.len() as u8;
        copy_in(&mut self.bytes, frame.payload);
    }
}
