//! Numbers in a capture file.

ghost use Rattle.std.specs.Prelude.{◌≡◌, ◌+◌, ◌≤◌, ◌<◌, ◌^◌, length, nat_le, Some, None, if◌then◌else◌};
ghost use Rattle.fr_recording.specs.Numbers.{short, long, longer, padded, most_captured};

use std::marker::Model;

/// The most bytes that may be captured of a record (project-defined).
pub const MOST_CAPTURED: u32 = 262_144;

/// The most sources that a section may have (project-defined).
pub const MOST_SOURCES: usize = 65_536;

/// The order of the bytes in the numbers of a file.
#[derive(Clone, Copy, Debug, PartialEq, Eq)]
pub enum Order {
    /// The lowest byte comes first.
    LowFirst,
    /// The highest byte comes first.
    HighFirst,
}

/// A number of captured bytes: 0 to 262,144 (project-defined).
#[derive(Clone, Copy, Debug, PartialEq, Eq)]
pub struct CapturedLength(u32);

impl Model for CapturedLength {
    ghost use Rattle.std.specs.Prelude.{ℕ, ◌≤◌};
    ghost use Rattle.fr_recording.specs.Numbers.{most_captured};

    ghost Value = { ℕ };

    ghost view = { λ n. n.0 };

    ghost invariant = { λ n. n.0 ≤ most_captured };

    ghost inverse = { λ n. record { 0 = n } };
}

impl CapturedLength {
    ghost use Rattle.fr_recording.specs.Numbers.{most_captured};

    /// Returns the length of this number, or none above 262,144.
    pub fn new(number: u32) -> Option<CapturedLength>
        ensures { result ≡ (if nat_le number most_captured then Some number else None) }
    {
        if number <= MOST_CAPTURED {
            Some(CapturedLength(number))
        } else {
            None
        }
    }

    /// Returns the length as a number.
    pub fn number(self) -> u32
        ensures value { result ≡ self }
        ensures fits { self ≤ most_captured }
    {
        self.0
    }
}

/// A time in nanoseconds, which an interface's clock and offset can give: from -2^94 to below 2^95 (project-defined).
#[derive(Clone, Copy, Debug, PartialEq, Eq)]
pub struct Moment(i128);

impl Model for Moment {
    ghost use Rattle.std.specs.Prelude.{ℤ};
    ghost use Rattle.fr_recording.specs.Times.{IsMoment};

    ghost Value = { ℤ };

    ghost view = { λ m. m.0 };

    ghost invariant = { λ m. IsMoment m.0 };

    ghost inverse = { λ n. record { 0 = n } };
}

impl Moment {
    ghost use Rattle.fr_recording.specs.Times.{IsMoment};

    /// Returns the moment of so many nanoseconds.
    pub(crate) fn new(nanoseconds: i128) -> Moment
        requires { IsMoment nanoseconds }
        ensures { result ≡ nanoseconds }
    {
        Moment(nanoseconds)
    }

    /// Returns the nanoseconds.
    pub fn nanoseconds(self) -> i128
        ensures value { result ≡ self }
        ensures fits { IsMoment self }
    {
        self.0
    }
}

/// Returns the number of two bytes at a place.
pub(crate) fn short(order: Order, bytes: &[u8], place: usize) -> u16
    requires { place + 2 ≤ length bytes.now }
    ensures { result ≡ short order place bytes.now }
{
    let number = [bytes[place], bytes[place + 1]];
    match order {
        Order::LowFirst => u16::from_le_bytes(number),
        Order::HighFirst => u16::from_be_bytes(number),
    }
}

/// Returns the number of four bytes at a place.
pub(crate) fn long(order: Order, bytes: &[u8], place: usize) -> u32
    requires { place + 4 ≤ length bytes.now }
    ensures { result ≡ long order place bytes.now }
{
    let number = [
        bytes[place],
        bytes[place + 1],
        bytes[place + 2],
        bytes[place + 3],
    ];
    match order {
        Order::LowFirst => u32::from_le_bytes(number),
        Order::HighFirst => u32::from_be_bytes(number),
    }
}

/// Returns the number that these eight bytes spell.
pub(crate) fn longer(order: Order, bytes: &[u8]) -> u64
    requires { length bytes.now ≡ 8 }
    ensures { result ≡ longer order 0 bytes.now }
{
    let number = [
        bytes[0], bytes[1], bytes[2], bytes[3], bytes[4], bytes[5], bytes[6], bytes[7],
    ];
    match order {
        Order::LowFirst => u64::from_le_bytes(number),
        Order::HighFirst => u64::from_be_bytes(number),
    }
}

/// Returns a number of bytes, rounded up to a multiple of four.
pub(crate) fn padded(number: u32) -> u64
    ensures value { result ≡ padded number }
{
    (u64::from(number) + 3) / 4 * 4
}
