//! One channel's dynamic segment in one cycle.

ghost use Rattle.std.specs.Prelude.{◌≡◌, ◌<◌, ◌≤◌};
ghost use Rattle.fr_minislot.specs.DynamicRows.{row_length, is_row};

use fr_slots::numbers::SlotId;
use fr_slots::params::Params;
use std::marker::Model;
use thiserror::Error;

/// The greatest number of bytes of a transmission (chapter 4). It is a frame of 127 two-byte words, with header and
/// trailer.
const LONGEST: u16 = 262;

/// The last slot of a channel (chapter 5).
const LAST_SLOT: u16 = 2047;

/// Reasons to refuse to close a slot (project-defined).
#[derive(Clone, Copy, Debug, PartialEq, Eq, Error)]
pub enum LaneError {
    /// A cycle in which the channel opens no further slot.
    #[error("NothingOpen")]
    NothingOpen,
    /// A number of bytes that no transmission has.
    #[error("TooLong")]
    TooLong,
}

/// One channel's dynamic segment in one cycle, after the slots that were closed (chapter 5).
///
/// The first dynamic slot follows the last static slot, and opens at minislot 1. Each next slot opens after the
/// minislots of the slot before it. Those are one if nothing was sent; otherwise they are the ones that its longest
/// transmission fills, and the idle ones after them (project-defined).
#[derive(Clone, Copy, PartialEq, Eq)]
pub struct Lane {
    params: Params,
    /// The next slot.
    slot: u16,
    /// Its first minislot, counted from 1, which may come after the segment's last.
    begins: u16,
}

impl Model for Lane {
    ghost use Rattle.fr_minislot.specs.Lanes.{Standing};

    ghost Value = { Standing };

    ghost use Rattle.fr_minislot.specs.LaneFields.{standing_in, IsLawful};

    ghost view = { standing_in };

    ghost invariant = { IsLawful };

    ghost inverse = { λ s. record { params = s.params; slot = s.slot; begins = s.begins } };
}

/// Returns whether a slot of this number and first minislot opens, if all slots before it do.
fn is_row(params: &Params, slot: u16, begins: u16) -> bool
    ensures { result ≡ is_row params.now slot begins }
{
    begins <= params.minislots && slot <= LAST_SLOT
}

/// Returns the number of minislots of a slot whose longest transmission has so many bytes, at most 262; 0 if nothing
/// was sent (chapter 5; the length is project-defined). The end of the segment may cut it off.
pub fn row_length(params: &Params, bytes: u16) -> u16
    requires { bytes ≤ 262 }
    ensures value { result ≡ row_length params.now bytes }
    ensures fits { result ≤ 300 }
{
    if bytes == 0 {
        return 1;
    }
    bytes.div_ceil(2 * params.words_per_minislot) + params.idle
}

impl Lane {
    ghost use Rattle.std.specs.Prelude.{◌≡◌, ◌++◌, ◌∷◌, [], List, ℕ, OnOk, OnErr};
    ghost use Rattle.std.specs.Result.{result_err};
    ghost use Rattle.fr_minislot.specs.DynamicRows.{opened_after};
    ghost use Rattle.fr_minislot.specs.Lanes.{IsStanding, close_refusal, closed, next_in, opened_in, standing_after};

    /// Returns the dynamic segment of a cycle, at its start (chapter 5).
    pub fn new(params: &Params) -> Lane
        ensures { result ≡ standing_after params.now [] }
    {
        let slot = params.static_slots + 1;
        Lane {
            params: *params,
            slot,
            begins: 1,
        }
    }

    /// Returns the parameters of the cluster.
    pub fn params(&self) -> &Params
        ensures value { result.now ≡ self.now.params }
        ensures rows { IsStanding self.now }
    {
        &self.params
    }

    /// Returns the slot that the channel opens at the minislot, counted from 1 (chapter 5). Returns none if the next
    /// slot begins at another minislot or after the last one, and once slot 2047 is closed.
    pub fn opens(&self, minislot: u16) -> Option<SlotId>
        ensures value { result ≡ opened_in self.now minislot }
        ensures rows { (counts : List ℕ)
            → self.now ≡ standing_after self.now.params counts
            → result ≡ opened_after self.now.params counts minislot }
    {
        if is_row(&self.params, self.slot, self.begins) && self.begins == minislot {
            SlotId::new(self.slot)
        } else {
            None
        }
    }

    /// Returns the minislot, counted from 1, at which the channel opens its next slot (chapter 5). Returns none if it
    /// opens no further slot in the cycle.
    pub fn next(&self) -> Option<u16>
        ensures { result ≡ next_in self.now }
    {
        if is_row(&self.params, self.slot, self.begins) {
            Some(self.begins)
        } else {
            None
        }
    }

    /// Closes the next slot (chapter 5). `bytes` is the length of the longest transmission that passed in it, or 0 for
    /// none.
    ///
    /// Fails with `NothingOpen` if the channel opens no further slot, then with `TooLong` for more than 262 bytes.
    pub fn close(&mut self, bytes: u16) -> Result<(), LaneError>
        ensures refusal { result_err result ≡ close_refusal self.old bytes }
        ensures accepted { OnOk result (self.new ≡ closed self.old bytes) }
        ensures rows { OnOk result
            ((counts : List ℕ)
            → self.old ≡ standing_after self.old.params counts
            → self.new ≡ standing_after self.old.params (counts ++ bytes ∷ [])) }
        ensures refused { OnErr result (self.new ≡ self.old) }
    {
        // The call closes the next slot at any minislot. So `NothingOpen` means that the channel opens no further slot
        // in the cycle, and it comes before `TooLong`.
        if !is_row(&self.params, self.slot, self.begins) {
            return Err(LaneError::NothingOpen);
        }
        if bytes > LONGEST {
            return Err(LaneError::TooLong);
        }
        let length = row_length(&self.params, bytes);
        *self = Lane {
            params: self.params,
            slot: self.slot + 1,
            begins: self.begins + length,
        };
        Ok(())
    }
}
