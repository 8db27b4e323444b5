//! The course of a capture file: the part that comes next, and the effect of each whole part.

ghost use Rattle.std.specs.Prelude.{◌≡◌, ◌-◌, ◌≤◌, ◌<◌, [], length, take, max, min};
ghost use Rattle.std.specs.Prelude.{None, Some, IfOk, IfSome, IfNone, IsTrue};
ghost use Rattle.fr_recording.specs.Captures.{magic_in, order_in, record_head};
ghost use Rattle.fr_recording.specs.Numbers.{most_captured};
ghost use Rattle.fr_recording.specs.Stream.{needed, less, fresh, read_on, go, bad, start, with_captured, after_magic};
ghost use Rattle.fr_recording.specs.Stream.{tell, after_record_head, skip, after_section, after_mark, add_source};
ghost use Rattle.fr_recording.specs.Stream.{next_option, after_option_header, after_option, after_head, after_packet};
ghost use Rattle.fr_recording.specs.Stream.{after_simple, after_bytes, after_trailer, enter, after_block_header};
ghost use Rattle.fr_recording.specs.Stream.{after_part, end_in, take_bytes};
ghost use Rattle.fr_recording.specs.Classics.{BeginsClassic};
ghost use Rattle.fr_recording.specs.declared.classic.Classic.{Classic};
ghost use Rattle.fr_recording.specs.Steps.{IsWholeHead, TakesRecord, tell_next};

use crate::classic::Classic;
use crate::heads::{
    Magic, SECTION, is_bad_front, is_length_of, link_of, magic_of, order_of, packet_head,
    record_head, simple_head, source_of, with_option,
};
use crate::numbers::{MOST_CAPTURED, MOST_SOURCES, Order, long, padded, short};
use crate::phase::{Block, Head, Phase, Refusal};
use crate::source::Source;
use std::alloc::{AllocError, Global};
use std::marker::Model;

/// The course of a capture file between two of its parts.
#[derive(Drop)]
pub struct Course {
    phase: Phase,
    order: Order,
    sources: Vec<Source>,
    captured: Vec<u8>,
    begin: u64,
    at: u64,
    skipped: u64,
    told: Option<Head>,
}

impl Model for Course {
    ghost use Rattle.fr_recording.specs.Stream.{State};

    ghost Value = { State };

    ghost use Rattle.fr_recording.specs.CourseFields.{state_in, HasRoom};

    ghost view = { state_in };

    ghost invariant = { HasRoom };
}

/// Returns the block after so many of its bytes have been read.
fn less(block: Block, count: u32) -> Block
    ensures { result ≡ less block count }
{
    Block {
        length: block.length,
        left: block.left.saturating_sub(count),
    }
}

/// Returns the number of bytes of a part.
pub(crate) fn needed(phase: &Phase) -> u32
    ensures value { result ≡ needed phase.now }
    ensures few { result ≤ most_captured }
{
    match phase {
        Phase::Start | Phase::SectionLength | Phase::ByteOrder(_, _) => 4,
        Phase::OptionHeader(_, _) | Phase::SimpleHeader(_) | Phase::Trailer(_, _) => 4,
        Phase::FileHeader(_) | Phase::PacketHeader(_, _) => 20,
        Phase::RecordHeader(_, _) => 16,
        Phase::BlockHeader | Phase::SourceHeader(_) => 8,
        Phase::RecordBytes(_, _, head) => head.captured.number(),
        Phase::OptionValue(_, _, _, size) => padded(u32::from(*size)) as u32,
        Phase::PacketBytes(_, head) => padded(head.captured.number()) as u32,
        Phase::Skipped(_, _) | Phase::Refused(_) => 1,
    }
}

/// Returns the head at the front of these bytes, if the record has captured bytes and is whole there.
fn whole_head(order: Order, scale: u32, link: u16, bytes: &[u8]) -> Option<Head>
    ensures { IfSome result (λ head. IsWholeHead order scale link bytes.now head) }
{
    if bytes.len() < 16 {
        return None;
    }
    let head = record_head(order, scale, link, &bytes[..16])?;
    let count = head.captured.number() as usize;
    if count == 0 || bytes.len() < 16 + count {
        return None;
    }
    Some(head)
}

impl Course {
    /// Returns the course before the first byte. It reserves room for all sources and for the bytes of a record.
    pub(crate) fn new(alloc: Global) -> Result<Course, AllocError>
        ensures { IfOk result (λ course. course ≡ fresh.state) }
    {
        Ok(Course {
            phase: Phase::Start,
            order: Order::LowFirst,
            sources: Vec::with_capacity(alloc, MOST_SOURCES)?,
            captured: Vec::with_capacity(alloc, MOST_CAPTURED as usize)?,
            begin: 0,
            at: 0,
            skipped: 0,
            told: None,
        })
    }

    /// Returns the part that comes next.
    pub(crate) fn phase(&self) -> Phase
        ensures { result ≡ self.now.phase }
    {
        self.phase
    }

    /// Returns the head of the record that the last byte completed, if it completed one.
    pub(crate) fn told(&self) -> Option<Head>
        ensures { result ≡ self.now.told }
    {
        self.told
    }

    /// Returns the captured bytes of the record that was read last.
    pub(crate) fn captured(&self) -> &[u8]
        ensures { result.now ≡ self.now.captured }
    {
        self.captured.as_slice()
    }

    /// Returns the number of blocks that were no records.
    pub(crate) fn skipped(&self) -> u64
        ensures { result ≡ self.now.skipped }
    {
        self.skipped
    }

    /// Counts bytes that have been read, and that complete no record yet.
    pub(crate) fn read_on(&mut self, count: u64)
        ensures { self.new ≡ read_on self.old count }
    {
        self.at = self.at.saturating_add(count);
        self.told = None;
    }

    /// Goes to the part that comes next.
    fn go(&mut self, phase: Phase)
        ensures { self.new ≡ go self.old phase }
    {
        self.phase = phase;
    }

    /// Refuses the record or block that was begun last.
    fn refuse(&mut self)
        ensures { self.new ≡ bad self.old }
    {
        self.phase = Phase::Refused(Refusal::BadBlock(self.begin));
    }

    /// Begins a record or block.
    fn start(&mut self, phase: Phase)
        ensures { self.new ≡ start self.old phase }
    {
        self.phase = phase;
        self.begin = self.at;
    }

    /// Keeps the captured bytes of a record.
    #[inline(never)]
    fn keep(&mut self, bytes: &[u8])
        requires { length bytes.now ≤ most_captured }
        ensures { self.new ≡ with_captured self.old bytes.now }
    {
        // Records of one length are the rule, and their bytes are copied in place.
        if self.captured.len() == bytes.len() {
            self.captured.copy_from_slice(bytes);
            return;
        }
        self.captured.clear();
        let _ = self.captured.extend_from_slice(bytes);
    }

    fn after_magic(&mut self, bytes: &[u8])
        requires { length bytes.now ≡ 4 }
        ensures { self.new ≡ after_magic self.old (magic_in bytes.now) }
    {
        match magic_of(bytes) {
            Magic::Classic(order, scale) => {
                self.order = order;
                self.phase = Phase::FileHeader(scale);
            }
            Magic::Sections => self.phase = Phase::SectionLength,
            Magic::Unknown => self.phase = Phase::Refused(Refusal::NoCapture),
        }
    }

    /// Completes a record of a classic file.
    fn tell(&mut self, scale: u32, link: u16, head: Head, bytes: &[u8])
        requires { length bytes.now ≤ most_captured }
        ensures { self.new ≡ tell self.old scale link head bytes.now }
    {
        // The head is stored first: it is read again soon, and the copy of the bytes gives the store time.
        self.told = Some(head);
        self.keep(bytes);
        self.start(Phase::RecordHeader(scale, link));
    }

    /// Completes a record of a classic file, before the next one. The part that comes next is stored already.
    fn tell_next(&mut self, head: Head, bytes: &[u8])
        requires { length bytes.now ≤ most_captured }
        ensures { self.new ≡ tell_next self.old head bytes.now }
    {
        // As in `tell`, the head is stored first.
        self.told = Some(head);
        self.keep(bytes);
        self.begin = self.at;
    }

    fn after_record_head(&mut self, scale: u32, link: u16, bytes: &[u8])
        requires { length bytes.now ≡ 16 }
        ensures { self.new ≡ after_record_head self.old scale link (record_head self.old.order scale link bytes.now) }
    {
        match record_head(self.order, scale, link, bytes) {
            None => self.refuse(),
            Some(head) if head.captured.number() == 0 => self.tell(scale, link, head, &[]),
            Some(head) => self.go(Phase::RecordBytes(scale, link, head)),
        }
    }

    /// Takes the record of a classic file whose head and captured bytes are at the front of these bytes, and returns
    /// their number. If no such record is whole there, or it has no captured bytes, nothing is taken.
    pub(crate) fn take_record(&mut self, bytes: &[u8]) -> usize
        ensures within { result ≤ length bytes.now }
        ensures none { result ≡ 0 → self.new ≡ self.old }
        ensures record { 0 < result → TakesRecord self.old bytes.now result self.new }
    {
        let Phase::RecordHeader(scale, link) = self.phase else {
            return 0;
        };
        let Some(head) = whole_head(self.order, scale, link, bytes) else {
            return 0;
        };
        let whole = 16 + head.captured.number() as usize;
        self.read_on(whole as u64);
        self.tell_next(head, &bytes[16..whole]);
        whole
    }

    /// Returns what the records of a classic file have in common, if one begins with the next byte or has begun.
    pub(crate) fn classic(&self) -> Option<Classic>
        ensures some { IfSome result (λ classic. BeginsClassic (record { state = self.now; held = [] }) classic) }
        ensures none { IfNone result ((c : Classic) → BeginsClassic (record { state = self.now; held = [] }) c → ⊥) }
    {
        match self.phase {
            Phase::RecordHeader(scale, link) => Some(Classic {
                order: self.order,
                scale,
                link,
            }),
            _ => None,
        }
    }

    /// Takes the records of a classic file that are whole at the front of these bytes, and returns the number of their
    /// bytes. Only the last one is copied.
    pub(crate) fn pass_whole(&mut self, bytes: &[u8]) -> usize
        ensures within { result ≤ length bytes.now }
        ensures state { record { state = self.new; held = [] }
            ≡ take_bytes (record { state = self.old; held = [] }) (take result bytes.now) }
    {
        let Some(classic) = self.classic() else {
            return 0;
        };
        let last = classic.last_whole(bytes);
        let rest = &bytes[last..];
        let Some(head) = whole_head(classic.order, classic.scale, classic.link, rest) else {
            return 0;
        };
        let whole = 16 + head.captured.number() as usize;
        self.read_on((last + whole) as u64);
        self.tell_next(head, &rest[16..whole]);
        last + whole
    }

    /// Goes to the end of a block, without a look at the bytes before it.
    fn skip(&mut self, block: Block, head: Option<Head>)
        ensures { self.new ≡ skip self.old block head }
    {
        if block.left == 0 {
            self.go(Phase::Trailer(block.length, head));
        } else {
            self.go(Phase::Skipped(block, head));
        }
    }

    /// Begins a section, of which 16 bytes have been read.
    fn after_section(&mut self, order: Order, whole: u32)
        ensures { self.new ≡ after_section self.old order whole }
    {
        if is_length_of(SECTION, whole) {
            self.order = order;
            self.sources.clear();
            self.skip(
                Block {
                    length: whole,
                    left: whole.saturating_sub(16),
                },
                None,
            );
        } else {
            self.refuse();
        }
    }

    fn after_mark(&mut self, low: u32, high: u32, bytes: &[u8])
        requires { length bytes.now ≡ 4 }
        ensures { self.new ≡ after_mark self.old low high (order_in bytes.now) }
    {
        match order_of(bytes) {
            Some(Order::LowFirst) => self.after_section(Order::LowFirst, low),
            Some(Order::HighFirst) => self.after_section(Order::HighFirst, high),
            None if self.begin == 0 => self.go(Phase::Refused(Refusal::NoCapture)),
            None => self.refuse(),
        }
    }

    /// Adds a source to the section.
    fn add_source(&mut self, block: Block, source: Source)
        ensures { self.new ≡ add_source self.old block source }
    {
        if self.sources.len() < MOST_SOURCES {
            let _ = self.sources.push(source);
            self.skip(block, None);
        } else {
            self.refuse();
        }
    }

    /// Goes to the next option of a source, or adds it if its options are over.
    fn next_option(&mut self, block: Block, source: Source)
        ensures { self.new ≡ next_option self.old block source }
    {
        if block.left == 0 {
            self.add_source(block, source);
        } else {
            self.go(Phase::OptionHeader(block, source));
        }
    }

    fn after_option_header(&mut self, block: Block, source: Source, bytes: &[u8])
        requires { length bytes.now ≡ 4 }
        ensures { self.new ≡ after_option_header self.old block source bytes.now }
    {
        let (code, size) = (short(self.order, bytes, 0), short(self.order, bytes, 2));
        let block = less(block, 4);
        if u64::from(block.left) < padded(u32::from(size)) {
            self.refuse();
        } else if code == 0 {
            self.add_source(block, source);
        } else if size == 0 {
            self.next_option(block, source);
        } else {
            self.go(Phase::OptionValue(block, source, code, size));
        }
    }

    fn after_option(&mut self, block: Block, source: Source, code: u16, size: u16, bytes: &[u8])
        requires { size ≤ length bytes.now }
        ensures { self.new ≡ after_option self.old block source code size bytes.now }
    {
        let source = with_option(self.order, code, &bytes[..usize::from(size)], source);
        self.next_option(less(block, padded(u32::from(size)) as u32), source);
    }

    /// Goes to the captured bytes of a packet, if there are any.
    fn after_head(&mut self, block: Block, head: Option<Head>)
        ensures { self.new ≡ after_head self.old block head }
    {
        match head {
            None => self.refuse(),
            Some(head) if head.captured.number() == 0 => {
                self.captured.clear();
                self.skip(block, Some(head));
            }
            Some(head) => self.go(Phase::PacketBytes(block, head)),
        }
    }

    fn after_packet(&mut self, block: Block, obsolete: bool, bytes: &[u8])
        requires { length bytes.now ≡ 20 }
        ensures { self.new ≡ after_packet self.old block obsolete bytes.now }
    {
        let rest = less(block, 20);
        let sources = self.sources.as_slice();
        let head = packet_head(self.order, obsolete, sources, rest.left, bytes);
        self.after_head(rest, head);
    }

    fn after_simple(&mut self, block: Block, bytes: &[u8])
        requires { length bytes.now ≡ 4 }
        ensures { self.new ≡ after_simple self.old block bytes.now }
    {
        let rest = less(block, 4);
        let head = simple_head(self.order, self.sources.as_slice(), rest.left, bytes);
        self.after_head(rest, head);
    }

    fn after_bytes(&mut self, block: Block, head: Head, bytes: &[u8])
        requires { head.captured ≤ length bytes.now }
        ensures { self.new ≡ after_bytes self.old block head bytes.now }
    {
        let count = head.captured.number();
        self.keep(&bytes[..count as usize]);
        self.skip(less(block, padded(count) as u32), Some(head));
    }

    fn after_trailer(&mut self, whole: u32, head: Option<Head>, bytes: &[u8])
        requires { length bytes.now ≡ 4 }
        ensures { self.new ≡ after_trailer self.old whole head bytes.now }
    {
        if long(self.order, bytes, 0) != whole {
            self.refuse();
            return;
        }
        match head {
            None => self.skipped = self.skipped.saturating_add(1),
            Some(_) => self.told = head,
        }
        self.start(Phase::BlockHeader);
    }

    /// Enters a block of this type.
    fn enter(&mut self, kind: u32, block: Block)
        ensures { self.new ≡ enter self.old kind block }
    {
        match kind {
            1 if self.sources.len() < MOST_SOURCES => self.go(Phase::SourceHeader(block)),
            1 => self.refuse(),
            2 => self.go(Phase::PacketHeader(block, true)),
            3 if self.sources.is_empty() => self.refuse(),
            3 => self.go(Phase::SimpleHeader(block)),
            6 => self.go(Phase::PacketHeader(block, false)),
            _ => self.skip(block, None),
        }
    }

    fn after_block_header(&mut self, bytes: &[u8])
        requires { length bytes.now ≡ 8 }
        ensures { self.new ≡ after_block_header self.old bytes.now }
    {
        let kind = long(self.order, bytes, 0);
        if kind == SECTION {
            let low = long(Order::LowFirst, bytes, 4);
            let high = long(Order::HighFirst, bytes, 4);
            self.go(Phase::ByteOrder(low, high));
            return;
        }
        let length = long(self.order, bytes, 4);
        if is_length_of(kind, length) {
            self.enter(
                kind,
                Block {
                    length,
                    left: length.saturating_sub(12),
                },
            );
        } else {
            self.refuse();
        }
    }

    /// Examines a whole part. Its length is that of the part that comes next.
    pub(crate) fn after_part(&mut self, bytes: &[u8])
        requires { length bytes.now ≡ max 1 (needed self.old.phase) }
        ensures { self.new ≡ after_part self.old.phase self.old bytes.now }
    {
        match self.phase {
            Phase::Start => self.after_magic(bytes),
            Phase::FileHeader(scale) => {
                let link = link_of(self.order, bytes);
                self.start(Phase::RecordHeader(scale, link));
            }
            Phase::RecordHeader(scale, link) => self.after_record_head(scale, link, bytes),
            Phase::RecordBytes(scale, link, head) => {
                let count = head.captured.number() as usize;
                self.tell(scale, link, head, &bytes[..count]);
            }
            Phase::SectionLength => self.go(Phase::ByteOrder(
                long(Order::LowFirst, bytes, 0),
                long(Order::HighFirst, bytes, 0),
            )),
            Phase::ByteOrder(low, high) => self.after_mark(low, high, bytes),
            Phase::BlockHeader => self.after_block_header(bytes),
            Phase::SourceHeader(block) => {
                let source = source_of(self.order, bytes);
                self.next_option(less(block, 8), source);
            }
            Phase::OptionHeader(block, source) => self.after_option_header(block, source, bytes),
            Phase::OptionValue(block, source, code, size) => {
                self.after_option(block, source, code, size, bytes);
            }
            Phase::PacketHeader(block, obsolete) => self.after_packet(block, obsolete, bytes),
            Phase::SimpleHeader(block) => self.after_simple(block, bytes),
            Phase::PacketBytes(block, head) => self.after_bytes(block, head, bytes),
            Phase::Skipped(block, head) => self.pass(block, head, 1),
            Phase::Trailer(length, head) => self.after_trailer(length, head, bytes),
            Phase::Refused(_) => {}
        }
    }

    /// Passes so many bytes of a block that aren't looked at.
    pub(crate) fn pass(&mut self, block: Block, head: Option<Head>, count: u32)
        ensures { self.new ≡ skip self.old (less block count) head }
    {
        self.skip(less(block, count), head);
    }

    /// Returns the refusal of a file that ends here, after these bytes of a part.
    pub(crate) fn refusal(&self, held: &[u8]) -> Option<Refusal>
        ensures { result ≡ end_in self.now.phase self.now held.now }
    {
        let truncated = Refusal::Truncated(self.begin);
        match self.phase {
            Phase::Refused(refusal) => Some(refusal),
            Phase::Start => Some(Refusal::NoCapture),
            Phase::RecordHeader(_, _) | Phase::BlockHeader if held.is_empty() => None,
            Phase::PacketHeader(block, obsolete) => {
                let room = less(block, 20).left;
                if is_bad_front(self.order, obsolete, self.sources.as_slice(), room, held) {
                    Some(Refusal::BadBlock(self.begin))
                } else {
                    Some(truncated)
                }
            }
            _ => Some(truncated),
        }
    }
}
