//! The heads of records and blocks, each in its bytes.

ghost use Rattle.std.specs.Prelude.{◌≡◌, ◌≤◌, length, Some, None, if◌then◌else◌};
ghost use Rattle.fr_recording.specs.Captures.{magic_in, link_in, record_head, is_length_of, order_in, source_in};
ghost use Rattle.fr_recording.specs.Captures.{with_option, packet_head, is_bad_front, simple_head, is_captured_in};
ghost use Rattle.fr_recording.specs.Captures.{source_number, captured_of};

use crate::numbers::{CapturedLength, MOST_CAPTURED, Moment, Order, long, longer, padded, short};
use crate::phase::Head;
use crate::source::{Source, time_of};

/// The first four bytes of a section, in either order.
pub(crate) const SECTION: u32 = 0x0a0d_0d0a;

/// The formats of a capture file, by its first four bytes.
#[derive(Clone, Copy)]
pub(crate) enum Magic {
    /// A classic file, with the nanoseconds in a part of a second.
    Classic(Order, u32),
    /// A file with sections.
    Sections,
    /// No capture file.
    Unknown,
}

/// Returns the format of a file that begins with these four bytes.
pub(crate) fn magic_of(bytes: &[u8]) -> Magic
    requires { length bytes.now ≡ 4 }
    ensures { result ≡ magic_in bytes.now }
{
    let low = long(Order::LowFirst, bytes, 0);
    let high = long(Order::HighFirst, bytes, 0);
    if low == 0xa1b2_c3d4 {
        Magic::Classic(Order::LowFirst, 1000)
    } else if high == 0xa1b2_c3d4 {
        Magic::Classic(Order::HighFirst, 1000)
    } else if low == 0xa1b2_3c4d {
        Magic::Classic(Order::LowFirst, 1)
    } else if high == 0xa1b2_3c4d {
        Magic::Classic(Order::HighFirst, 1)
    } else if low == SECTION {
        Magic::Sections
    } else {
        Magic::Unknown
    }
}

/// Returns the link type of a classic file, in the 20 bytes after its magic number.
pub(crate) fn link_of(order: Order, bytes: &[u8]) -> u16
    requires { length bytes.now ≡ 20 }
    ensures { result ≡ link_in order bytes.now }
{
    (long(order, bytes, 16) % 0x1_0000) as u16
}

/// Returns the head of a record of a classic file, or none if too many bytes are captured.
pub(crate) fn record_head(order: Order, scale: u32, link: u16, bytes: &[u8]) -> Option<Head>
    requires { length bytes.now ≡ 16 }
    ensures { result ≡ record_head order scale link bytes.now }
{
    let captured = CapturedLength::new(long(order, bytes, 8))?;
    let seconds = u128::from(long(order, bytes, 0)) * 1_000_000_000;
    let parts = u128::from(long(order, bytes, 4)) * u128::from(scale);
    Some(Head {
        time: Some(Moment::new((seconds + parts) as i128)),
        link,
        captured,
        original: long(order, bytes, 12),
    })
}

/// Returns whether a block of this type may have this length.
pub(crate) fn is_length_of(kind: u32, length: u32) -> bool
    ensures { result ≡ is_length_of kind length }
{
    let least = match kind {
        SECTION => 28,
        1 => 20,
        2 | 6 => 32,
        3 => 16,
        _ => 12,
    };
    least <= length && length % 4 == 0
}

/// Returns the order of bytes in a section with this byte-order mark, or none if it is no such mark.
pub(crate) fn order_of(bytes: &[u8]) -> Option<Order>
    requires { length bytes.now ≡ 4 }
    ensures { result ≡ order_in bytes.now }
{
    if long(Order::LowFirst, bytes, 0) == 0x1a2b_3c4d {
        Some(Order::LowFirst)
    } else if long(Order::HighFirst, bytes, 0) == 0x1a2b_3c4d {
        Some(Order::HighFirst)
    } else {
        None
    }
}

/// Returns the source whose description begins with these eight bytes.
pub(crate) fn source_of(order: Order, bytes: &[u8]) -> Source
    requires { length bytes.now ≡ 8 }
    ensures { result ≡ source_in order bytes.now }
{
    Source {
        link: short(order, bytes, 0),
        snap: long(order, bytes, 4),
        resolution: None,
        offset: None,
    }
}

/// Returns the source with an option of this code and value.
pub(crate) fn with_option(order: Order, code: u16, value: &[u8], source: Source) -> Source
    ensures { result ≡ with_option order code value.now source }
{
    let mut changed = source;
    if code == 9 && value.len() == 1 && source.resolution.is_none() {
        changed.resolution = Some(value[0]);
    } else if code == 14 && value.len() == 8 && source.offset.is_none() {
        changed.offset = Some(longer(order, value).cast_signed());
    }
    changed
}

/// Returns the number of bytes that are captured of a record, if they fit a block with so many bytes left.
fn captured_in(room: u32, number: u32) -> Option<CapturedLength>
    ensures { result ≡ (if is_captured_in room number then Some number else None) }
{
    if padded(number) <= u64::from(room) {
        CapturedLength::new(number)
    } else {
        None
    }
}

/// Returns the number of a packet's source.
fn source_number(order: Order, obsolete: bool, bytes: &[u8]) -> u32
    requires { 4 ≤ length bytes.now }
    ensures { result ≡ source_number order obsolete bytes.now }
{
    if obsolete {
        u32::from(short(order, bytes, 0))
    } else {
        long(order, bytes, 0)
    }
}

/// Returns the head of a packet with so many bytes left in its block, or none if it has a fault.
pub(crate) fn packet_head(
    order: Order,
    obsolete: bool,
    sources: &[Source],
    room: u32,
    bytes: &[u8],
) -> Option<Head>
    requires { length bytes.now ≡ 20 }
    ensures { result ≡ packet_head order obsolete sources.now room bytes.now }
{
    let number = source_number(order, obsolete, bytes);
    let source = sources.get(number as usize)?;
    let captured = captured_in(room, long(order, bytes, 12))?;
    let units = u64::from(long(order, bytes, 4)) * 0x1_0000_0000 + u64::from(long(order, bytes, 8));
    Some(Head {
        time: Some(time_of(source, units)),
        link: source.link,
        captured,
        original: long(order, bytes, 16),
    })
}

/// Returns whether the front of such a head shows that it has a fault.
pub(crate) fn is_bad_front(
    order: Order,
    obsolete: bool,
    sources: &[Source],
    room: u32,
    bytes: &[u8],
) -> bool
    ensures { result ≡ is_bad_front order obsolete sources.now room bytes.now }
{
    if bytes.len() < 4 {
        return false;
    }
    if sources
        .get(source_number(order, obsolete, bytes) as usize)
        .is_none()
    {
        return true;
    }
    bytes.len() >= 16 && captured_in(room, long(order, bytes, 12)).is_none()
}

/// Returns the number of bytes that a source captures of so many.
fn captured_of(snap: u32, original: u32) -> u32
    ensures { result ≡ captured_of snap original }
{
    if snap == 0 {
        original
    } else {
        original.min(snap)
    }
}

/// Returns the head of a simple packet with so many bytes left in its block, or none if it has a fault.
pub(crate) fn simple_head(order: Order, sources: &[Source], room: u32, bytes: &[u8]) -> Option<Head>
    requires { length bytes.now ≡ 4 }
    ensures { result ≡ simple_head order sources.now room bytes.now }
{
    let source = sources.first()?;
    let original = long(order, bytes, 0);
    let captured = captured_in(room, captured_of(source.snap, original))?;
    Some(Head {
        time: None,
        link: source.link,
        captured,
        original,
    })
}
