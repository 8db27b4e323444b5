//! The names of findings.

ghost use Rattle.std.specs.Prelude.{◌≡◌};
ghost use Rattle.fr_monitoring.specs.LineText.{name_word};

use fr_logged::finding::Name;

/// All names, in the order of the summary.
pub(crate) const ALL: [Name; 28] = [
    Name::Cut,
    Name::LoggedCoding,
    Name::LoggedStart,
    Name::LoggedHeader,
    Name::LoggedEnd,
    Name::LoggedFrame,
    Name::Length,
    Name::HeaderCrc,
    Name::FrameCrc,
    Name::Slot,
    Name::Cycle,
    Name::Order,
    Name::Nobody,
    Name::Words,
    Name::Bits,
    Name::NullFrame,
    Name::NoBuffer,
    Name::Preamble,
    Name::Channels,
    Name::Closed,
    Name::Late,
    Name::Missing,
    Name::Gap,
    Name::Clock,
    Name::Time,
    Name::Silent,
    Name::Symbol,
    Name::Nothing,
];

/// Returns the word of a name.
pub(crate) fn name_word(name: Name) -> &'static str
    ensures { result.now ≡ name_word name }
{
    match name {
        Name::Cut => "Cut",
        Name::LoggedCoding => "LoggedCoding",
        Name::LoggedStart => "LoggedStart",
        Name::LoggedHeader => "LoggedHeader",
        Name::LoggedEnd => "LoggedEnd",
        Name::LoggedFrame => "LoggedFrame",
        Name::Length => "Length",
        Name::HeaderCrc => "HeaderCrc",
        Name::FrameCrc => "FrameCrc",
        Name::Slot => "Slot",
        Name::Cycle => "Cycle",
        Name::Order => "Order",
        Name::Nobody => "Nobody",
        Name::Words => "Words",
        Name::Bits => "Bits",
        Name::NullFrame => "NullFrame",
        Name::NoBuffer => "NoBuffer",
        Name::Preamble => "Preamble",
        Name::Channels => "Channels",
        Name::Closed => "Closed",
        Name::Late => "Late",
        Name::Missing => "Missing",
        Name::Gap => "Gap",
        Name::Clock => "Clock",
        Name::Time => "Time",
        Name::Silent => "Silent",
        Name::Symbol => "Symbol",
        Name::Nothing => "Nothing",
    }
}
