//! The parts of a capture file that may come next.

use crate::numbers::{CapturedLength, Moment};
use crate::source::Source;

/// Reasons to refuse a capture file, with the place of the record or block at fault (project-defined).
#[derive(Clone, Copy, Debug, PartialEq, Eq)]
pub enum Refusal {
    /// The file doesn't begin like a capture.
    NoCapture,
    /// The record or block that begins there isn't one.
    BadBlock(u64),
    /// The file ends within the record or block that begins there.
    Truncated(u64),
}

/// The head of a record.
#[derive(Clone, Copy)]
pub struct Head {
    /// The time in nanoseconds, if it is known.
    pub time: Option<Moment>,
    /// The link type.
    pub link: u16,
    /// The number of bytes that were captured.
    pub captured: CapturedLength,
    /// The number of bytes that there were.
    pub original: u32,
}

/// The length of a block, and the bytes that are left of it before its last four.
#[derive(Clone, Copy)]
pub struct Block {
    /// The length of the block.
    pub length: u32,
    /// The bytes that are left.
    pub left: u32,
}

/// The part of a capture file that comes next.
#[derive(Clone, Copy)]
pub enum Phase {
    /// The magic number of a classic file, or the type of a section.
    Start,
    /// The rest of a classic file's header. Times have nanoseconds in so many parts.
    FileHeader(u32),
    /// The head of a record of a classic file, with that scale and link type.
    RecordHeader(u32, u16),
    /// The captured bytes of such a record.
    RecordBytes(u32, u16, Head),
    /// The length of the first section.
    SectionLength,
    /// The byte-order mark of a section. Its length is the first number if the lowest byte comes first.
    ByteOrder(u32, u32),
    /// The type and the length of a block.
    BlockHeader,
    /// The head of the description of a source.
    SourceHeader(Block),
    /// The code and the size of an option of a source.
    OptionHeader(Block, Source),
    /// The value of an option with this code and size.
    OptionValue(Block, Source, u16, u16),
    /// The head of a packet, which is an obsolete one or an enhanced one.
    PacketHeader(Block, bool),
    /// The head of a simple packet.
    SimpleHeader(Block),
    /// The captured bytes of a packet, with their padding.
    PacketBytes(Block, Head),
    /// Bytes of a block that aren't looked at.
    Skipped(Block, Option<Head>),
    /// The length again, at the end of a block.
    Trailer(u32, Option<Head>),
    /// Nothing, since the file is refused.
    Refused(Refusal),
}
