//! The payload of a frame.

ghost use Rattle.std.specs.Prelude.{◌≡◌, ◌*◌, ◌≤◌, replicate, IfOk, OnOk, OnErr};
ghost use Rattle.std.specs.Result.{result_err};
ghost use Rattle.fr_frame.specs.Payload.{IsPayload, payload_refusal};
ghost use Rattle.fr_slots.specs.Numbers.{most_words};

use arrayvec::ArrayVec;
use fr_slots::copies::array_of;
use std::marker::Model;
use thiserror::Error;

/// The greatest length of a payload in bytes: 127 two-byte words (chapter 4).
pub const PAYLOAD_BYTES: usize = 254;

/// Reasons to refuse bytes as a payload.
#[derive(Clone, Copy, Debug, PartialEq, Eq, Error)]
pub enum FrameError {
    /// More than 254 bytes.
    #[error("a payload of more than 127 words")]
    PayloadTooLong,
    /// An odd number of bytes, since a payload is counted in two-byte words.
    #[error("a payload of an odd number of bytes")]
    OddPayload,
}

/// The payload of a frame: 0 to 127 two-byte words (chapter 4).
#[derive(Drop, PartialEq, Eq)]
pub struct Payload {
    bytes: ArrayVec<u8, PAYLOAD_BYTES>,
}

impl Model for Payload {
    ghost use Rattle.std.specs.Prelude.{ℕ, List};
    ghost use Rattle.fr_frame.specs.Payload.{IsPayload};

    ghost Value = { List ℕ };

    ghost view = { λ p. p.bytes.items };

    ghost invariant = { λ p. IsPayload p.bytes.items };

    ghost inverse = { λ items. record { bytes = record { items = items } } };
}

impl Default for Payload {
    ghost use Rattle.std.specs.Prelude.{[]};

    ghost is_default = { λ p. p ≡ [] };

    /// Returns the payload without words.
    fn default() -> Payload {
        Payload {
            bytes: ArrayVec::new(),
        }
    }
}

impl Payload {
    /// Returns the payload with these bytes.
    ///
    /// Fails with `PayloadTooLong` above 254 bytes, then with `OddPayload` for an odd number of bytes.
    pub fn from_slice(bytes: &[u8]) -> Result<Payload, FrameError>
        ensures refusal { result_err result ≡ payload_refusal bytes.now }
        ensures value { IfOk result (λ p. p ≡ bytes.now) }
    {
        let mut payload = Payload::default();
        match payload.set_from_slice(bytes) {
            Ok(()) => Ok(payload),
            Err(refusal) => Err(refusal),
        }
    }

    /// Returns a payload of so many words of zeros, at most 127.
    pub fn zeros(words: u16) -> Payload
        requires { words ≤ most_words }
        ensures { result ≡ replicate (2 * words) 0 }
    {
        Payload::of(&[0u8; PAYLOAD_BYTES][..2 * usize::from(words)])
    }

    /// Returns the payload of bytes that are known to be valid.
    pub(crate) fn of(bytes: &[u8]) -> Payload
        requires { IsPayload bytes.now }
        ensures { result ≡ bytes.now }
    {
        Payload {
            bytes: array_of(bytes),
        }
    }

    /// Replaces the bytes of the payload.
    ///
    /// Fails as `from_slice` does; a refusal leaves the payload unchanged.
    pub fn set_from_slice(&mut self, bytes: &[u8]) -> Result<(), FrameError>
        ensures refusal { result_err result ≡ payload_refusal bytes.now }
        ensures value { OnOk result (self.new ≡ bytes.now) }
        ensures refused { OnErr result (self.new ≡ self.old) }
    {
        if bytes.len() > PAYLOAD_BYTES {
            return Err(FrameError::PayloadTooLong);
        }
        if bytes.len() % 2 == 1 {
            return Err(FrameError::OddPayload);
        }
        self.replace_by(bytes);
        Ok(())
    }

    /// Replaces the bytes of the payload by those of the other.
    pub fn set_from(&mut self, other: &Payload)
        ensures { self.new ≡ other.now }
    {
        self.replace_by(other.as_slice());
    }

    /// Replaces the bytes of the payload by bytes that are known to be valid.
    pub(crate) fn replace_by(&mut self, bytes: &[u8])
        requires { IsPayload bytes.now }
        ensures { self.new ≡ bytes.now }
    {
        self.bytes.clear();
        let outcome = self.bytes.try_extend_from_slice(bytes);
        let fits = outcome.is_ok();
        prove!(fits);
    }

    /// Returns a copy of the payload.
    pub fn duplicate(&self) -> Payload
        ensures { result ≡ self.now }
    {
        Payload::of(self.as_slice())
    }

    /// Returns the bytes, an even number, at most 254.
    pub fn as_slice(&self) -> &[u8]
        ensures value { result.now ≡ self.now }
        ensures is_payload { IsPayload self.now }
    {
        self.bytes.as_slice()
    }
}
