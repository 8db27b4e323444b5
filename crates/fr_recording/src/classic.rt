//! Records of a classic file that lie whole in a piece, read in place.

ghost use Rattle.std.specs.Prelude.{◌≡◌, ◌≤◌, length, take, IfSome, IfNone};
ghost use Rattle.fr_recording.specs.Classics.{captured_in, original_in, time_in, IsWhole};
ghost use Rattle.fr_recording.specs.Steps.{AreWhole};

use crate::numbers::{MOST_CAPTURED, Moment, Order, long};

/// The records of a classic file: the order of the bytes in their heads, the scale of their times, and their link type.
#[derive(Clone, Copy)]
pub struct Classic {
    pub order: Order,
    /// The nanoseconds in a part of a second.
    pub scale: u32,
    pub link: u16,
}

impl Classic {
    /// Returns the number of captured bytes that a head has.
    #[inline(always)]
    pub fn captured(self, head: &[u8; 16]) -> u32
        ensures { result ≡ captured_in self head.now }
    {
        long(self.order, head, 8)
    }

    /// Returns the number of bytes that there were, by a head.
    #[inline(always)]
    pub fn original(self, head: &[u8; 16]) -> u32
        ensures { result ≡ original_in self head.now }
    {
        long(self.order, head, 12)
    }

    /// Returns the time in a head.
    #[inline(always)]
    pub fn time(self, head: &[u8; 16]) -> Moment
        ensures { result ≡ time_in self head.now }
    {
        let seconds = u128::from(long(self.order, head, 0)) * 1_000_000_000;
        let parts = u128::from(long(self.order, head, 4)) * u128::from(self.scale);
        Moment::new((seconds + parts) as i128)
    }

    /// Returns the head at the front of these bytes, if the record has captured bytes and is whole there.
    #[inline(always)]
    pub fn head<'a>(self, bytes: &'a [u8]) -> Option<&'a [u8; 16]>
        ensures some { IfSome result (λ head. IsWhole self bytes.entry.now head.now) }
        ensures none { IfNone result (IsWhole self bytes.entry.now (take 16 bytes.entry.now) → ⊥) }
    {
        let head = bytes.first_chunk::<16>()?;
        let captured = self.captured(head);
        if captured == 0 || captured > MOST_CAPTURED || bytes.len() - 16 < captured as usize {
            return None;
        }
        Some(head)
    }

    /// Returns the place of the last record that is whole in these bytes, after others that are, or 0 if none is.
    pub(crate) fn last_whole(self, bytes: &[u8]) -> usize
        ensures within { result ≤ length bytes.now }
        ensures whole { AreWhole self bytes.now result }
    {
        let mut last = 0;
        let mut next = 0;
        while let Some(head) = self.head(&bytes[next..]) {
            last = next;
            next += 16 + self.captured(head) as usize;
        }
        last
    }
}
