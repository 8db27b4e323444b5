//! Findings in a recording.

ghost use Rattle.std.specs.Prelude.{◌≡◌, pos};
ghost use Rattle.fr_logged.specs.Findings.{bare, with_numbers, number_word};

use fr_slots::channel::Channel;
use fr_slots::numbers::Cycle;

/// The name of a finding, in the order of the summary (project-defined).
#[derive(Clone, Copy, Debug, PartialEq, Eq)]
pub enum Name {
    /// Fewer bytes were captured than there were.
    Cut,
    /// The logger reports a coding error.
    LoggedCoding,
    /// The logger reports a violation of the transmission start sequence.
    LoggedStart,
    /// The logger reports a wrong header CRC.
    LoggedHeader,
    /// The logger reports a wrong frame end sequence.
    LoggedEnd,
    /// The logger reports a wrong frame CRC.
    LoggedFrame,
    /// The number of bytes isn't that of the header.
    Length,
    /// The header CRC isn't that of the bytes.
    HeaderCrc,
    /// The frame CRC isn't that of the bytes.
    FrameCrc,
    /// The frame ID is none of the cluster.
    Slot,
    /// No next frame agrees with the cycle count.
    Cycle,
    /// A frame of the cycle had a slot that isn't below this one.
    Order,
    /// No node sends in the slot.
    Nobody,
    /// The payload length isn't that of the slot.
    Words,
    /// The sync or startup indicator isn't that of the slot.
    Bits,
    /// A null frame has a payload preamble indicator or a payload that isn't zero, or is in a dynamic slot.
    NullFrame,
    /// No transmit buffer can have sent the data frame.
    NoBuffer,
    /// The payload preamble indicator isn't that of the transmit buffer.
    Preamble,
    /// The channels had different frames of a buffer for both.
    Channels,
    /// The slot doesn't open in the cycle.
    Closed,
    /// The slot opens after pLatestTx of the sender.
    Late,
    /// A static slot had no frame.
    Missing,
    /// Cycles are absent.
    Gap,
    /// The times of two cycles don't agree with their counts.
    Clock,
    /// The time of a static frame isn't that of its slot.
    Time,
    /// A channel fell silent.
    Silent,
    /// A symbol where the cluster has no symbol window.
    Symbol,
    /// A channel had no frame.
    Nothing,
}

/// The indicators of a frame, which are told as four letters.
#[derive(Clone, Copy, Debug, PartialEq, Eq)]
pub struct Letters {
    pub preamble: bool,
    pub has_data: bool,
    pub sync: bool,
    pub startup: bool,
}

/// What was expected or found.
#[derive(Clone, Copy, Debug, PartialEq, Eq)]
pub enum Word {
    /// Nothing.
    Absent,
    /// A number.
    Number(i128),
    /// A header CRC.
    HeaderCrc(u16),
    /// A frame CRC.
    FrameCrc(u32),
    /// The indicators of a frame.
    Letters(Letters),
}

/// A finding: its name, what was expected, and what was found.
#[derive(Clone, Copy, Debug, PartialEq, Eq)]
pub struct Finding {
    pub name: Name,
    pub expected: Word,
    pub found: Word,
}

/// The cycle, the channel and the slot of a finding, as far as they are known.
#[derive(Clone, Copy, Debug, PartialEq, Eq)]
pub struct Place {
    pub cycle: Option<Cycle>,
    pub channel: Channel,
    /// The slot, or 0 if a header has frame ID 0.
    pub slot: Option<u32>,
}

impl Word {
    /// Returns the word of a number.
    pub fn number(number: u64) -> Word
        ensures { result ≡ number_word number }
    {
        Word::Number(i128::from(number))
    }
}

impl Finding {
    /// Returns a finding without words.
    pub fn bare(name: Name) -> Finding
        ensures { result ≡ bare name }
    {
        Finding {
            name,
            expected: Word::Absent,
            found: Word::Absent,
        }
    }

    /// Returns a finding with two numbers.
    pub fn with_numbers(name: Name, expected: u64, found: u64) -> Finding
        ensures { result ≡ with_numbers name expected found }
    {
        Finding {
            name,
            expected: Word::number(expected),
            found: Word::number(found),
        }
    }
}
