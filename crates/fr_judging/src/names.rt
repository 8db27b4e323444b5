//! The names of findings in the order of the summary.

ghost use Rattle.std.specs.Prelude.{◌≡◌, ◌<◌};
ghost use Rattle.fr_judging.specs.Names.{index_of, is_missing};

use fr_logged::finding::Name;

/// The number of names.
pub const NAMES: usize = 28;

/// Returns the place of a name in the summary, from 0.
pub fn index_of(name: Name) -> usize
    ensures value { result ≡ index_of name }
    ensures fits { result < 28 }
{
    match name {
        Name::Cut => 0,
        Name::LoggedCoding => 1,
        Name::LoggedStart => 2,
        Name::LoggedHeader => 3,
        Name::LoggedEnd => 4,
        Name::LoggedFrame => 5,
        Name::Length => 6,
        Name::HeaderCrc => 7,
        Name::FrameCrc => 8,
        Name::Slot => 9,
        Name::Cycle => 10,
        Name::Order => 11,
        Name::Nobody => 12,
        Name::Words => 13,
        Name::Bits => 14,
        Name::NullFrame => 15,
        Name::NoBuffer => 16,
        Name::Preamble => 17,
        Name::Channels => 18,
        Name::Closed => 19,
        Name::Late => 20,
        Name::Missing => 21,
        Name::Gap => 22,
        Name::Clock => 23,
        Name::Time => 24,
        Name::Silent => 25,
        Name::Symbol => 26,
        Name::Nothing => 27,
    }
}

/// Returns whether this is the name of a static slot without a frame.
pub(crate) fn is_missing(name: Name) -> bool
    ensures { result ≡ is_missing name }
{
    match name {
        Name::Missing => true,
        _ => false,
    }
}
