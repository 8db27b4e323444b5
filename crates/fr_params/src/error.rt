//! The reasons to refuse a table as parameters.

use fr_slots::params::Key;
use thiserror::Error;

/// The first key at fault in a table of parameters, in the order of `Key`, or their sum.
#[derive(Clone, Copy, Debug, PartialEq, Eq, Error)]
pub enum ParamError {
    /// A key that the table doesn't have.
    #[error("Missing {0}")]
    Missing(Key),
    /// A value under the key that isn't an integer; floats aren't, even without a fraction.
    #[error("NotANumber {0}")]
    NotANumber(Key),
    /// A number out of the key's range.
    #[error("OutOfRange {0}")]
    OutOfRange(Key),
    /// A sum of static slots, minislots, symbol window and network idle time that isn't the cycle.
    #[error("CycleSum")]
    CycleSum,
}
