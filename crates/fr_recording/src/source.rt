//! A source of records, which the format with blocks calls an interface, and times on its clock.

ghost use Rattle.std.specs.Prelude.{◌≡◌, ◌+◌, ◌*◌, ◌/◌, ◌^◌, ◌<◌, pos, ◌+ℤ◌, ◌*ℤ◌};
ghost use Rattle.fr_recording.specs.Times.{time_of, units_of};

use crate::numbers::Moment;

/// A source of records: an interface at which a logger captured.
#[derive(Clone, Copy)]
pub struct Source {
    /// The link type of its records.
    pub link: u16,
    /// The most bytes that it captures of a record, 0 without a limit.
    pub snap: u32,
    /// The units of its clock: a power of 2 in the lower seven bits if the highest one is set, otherwise a power of 10.
    pub resolution: Option<u8>,
    /// The start of its clock, in seconds.
    pub offset: Option<i64>,
}

/// Returns the nanoseconds in so many units of a clock.
fn nanoseconds(units: u64, resolution: u8) -> u128
    ensures value { result ≡ units * 10 ^ 9 / units_of resolution }
    ensures fits { result < 2 ^ 94 }
{
    let billion = u128::from(units) * 1_000_000_000;
    match resolution {
        9 => u128::from(units),
        6 => u128::from(units) * 1_000,
        0..=37 => billion / 10u128.pow(u32::from(resolution)),
        38..=127 => 0,
        128.. => billion >> (resolution - 128),
    }
}

/// Returns the time in nanoseconds of so many units on the source's clock.
pub(crate) fn time_of(source: &Source, units: u64) -> Moment
    ensures { result ≡ time_of source.now units }
{
    let since = nanoseconds(units, source.resolution.unwrap_or(6));
    let start = i128::from(source.offset.unwrap_or(0)) * 1_000_000_000;
    Moment::new(since as i128 + start)
}
