//! A midpoint, and the reasons to refuse values.

use std::error::Error;
use std::fmt;

/// The greatest number of values that have a midpoint (project-defined).
pub const VALUES: usize = 15;

/// The greatest distance of a value from 0 (project-defined).
pub const GREATEST: u32 = 1_000_000;

/// The midpoint of some values, and the ranks of the two values between which it lies.
///
/// Ranks are counted from 1: the value of rank 1 is the least of all.
#[derive(Clone, Copy, PartialEq, Eq)]
pub struct Midpoint {
    /// Half the sum of the values of both ranks, truncated toward zero.
    pub value: i32,
    /// The rank of the least value that isn't dropped.
    pub low_rank: u8,
    /// The rank of the greatest value that isn't dropped.
    pub high_rank: u8,
}

/// Reasons to refuse values.
#[derive(Clone, Copy, Debug, PartialEq, Eq)]
pub enum MidpointError {
    /// More than 15 values.
    TooMany,
    /// A value more than 1,000,000 from 0.
    TooLarge,
}

impl fmt::Display for MidpointError {
    ghost use Rattle.std.specs.Prelude.{Some};
    ghost use Rattle.fr_midpoint.specs.ErrorNames.{midpoint_error_name};

    ghost output = { λ error. Some (midpoint_error_name error) };

    /// Writes the name.
    fn fmt<W: fmt::Write>(&self, f: &mut fmt::Formatter<W>) -> fmt::Result {
        match self {
            MidpointError::TooMany => write!(f, "TooMany"),
            MidpointError::TooLarge => write!(f, "TooLarge"),
        }
    }
}

impl Error for MidpointError {}
