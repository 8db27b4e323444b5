//! A reader of a capture file that comes in pieces of any length.

ghost use Rattle.std.specs.Prelude.{◌≡◌, ◌+◌, ◌<◌, ◌≤◌, ◌⊎◌, length, take, IfOk, max, [], option_map};
ghost use Rattle.std.specs.Prelude.{option_to_list, ◌==◌, IsSome, IfSome, IfNone, if◌then◌else◌};
ghost use Rattle.fr_recording.specs.Classics.{BeginsClassic};
ghost use Rattle.fr_recording.specs.Stream.{fresh, take_bytes, records_from, told_of, refusal_of, record_of, needed};
ghost use Rattle.fr_recording.specs.Stream.{is_refused};
ghost use Rattle.fr_recording.specs.Numbers.{most_captured};
ghost use Rattle.fr_recording.specs.declared.classic.Classic.{Classic};
ghost use Rattle.fr_recording.specs.Steps.{Steps};

use crate::classic::Classic;
use crate::course::{Course, needed};
use crate::numbers::MOST_CAPTURED;
use crate::phase::{Head, Phase, Refusal};
use std::alloc::{AllocError, Global};
use std::marker::Model;

/// Reads a capture file in pieces (project-defined).
#[derive(Drop)]
pub struct Reader {
    course: Course,
    /// The bytes of a part that isn't over.
    held: Vec<u8>,
}

impl Model for Reader {
    ghost use Rattle.fr_recording.specs.Stream.{Progress};

    ghost Value = { Progress };

    ghost use Rattle.fr_recording.specs.ReaderFields.{progress_in, HoldsPart};

    ghost view = { progress_in };

    ghost invariant = { HoldsPart };
}

impl Reader {
    /// Returns a reader before its first byte. All its memory is taken here.
    pub fn new(alloc: Global) -> Result<Reader, AllocError>
        ensures { IfOk result (λ reader. reader ≡ fresh) }
    {
        Ok(Reader {
            course: Course::new(alloc)?,
            held: Vec::with_capacity(alloc, MOST_CAPTURED as usize)?,
        })
    }

    /// Takes bytes of a part with this length, up to its end, and returns their number.
    fn fill(&mut self, whole: usize, bytes: &[u8]) -> usize
        requires length { whole ≡ max 1 (needed self.old.state.phase) }
        requires few { whole ≤ most_captured }
        requires some { 0 < length bytes.now }
        ensures some { 0 < result }
        ensures within { result ≤ length bytes.now }
        ensures steps { Steps self.old (take result bytes.now) self.new }
    {
        if self.held.is_empty() && whole <= bytes.len() {
            self.course.read_on(whole as u64);
            self.course.after_part(&bytes[..whole]);
            return whole;
        }
        let count = (whole - self.held.len()).min(bytes.len());
        self.course.read_on(count as u64);
        let _ = self.held.extend_from_slice(&bytes[..count]);
        if self.held.len() == whole {
            self.course.after_part(self.held.as_slice());
            self.held.clear();
        }
        count
    }

    /// Takes bytes up to the end of a part, and returns their number.
    fn step(&mut self, bytes: &[u8]) -> usize
        requires { 0 < length bytes.now }
        ensures some { 0 < result }
        ensures within { result ≤ length bytes.now }
        ensures steps { Steps self.old (take result bytes.now) self.new }
    {
        let phase = self.course.phase();
        match phase {
            Phase::Skipped(block, head) => {
                let count = bytes.len().min(block.left.max(1) as usize);
                self.course.read_on(count as u64);
                self.course.pass(block, head, count as u32);
                count
            }
            Phase::Refused(_) => {
                self.course.read_on(bytes.len() as u64);
                bytes.len()
            }
            _ => self.fill(needed(&phase).max(1) as usize, bytes),
        }
    }

    /// Takes the record of a classic file whose head and captured bytes are at the front of these bytes, and returns
    /// their number. If no such record is whole there, or it has no captured bytes, nothing is taken.
    fn whole_record(&mut self, bytes: &[u8]) -> usize
        ensures within { result ≤ length bytes.now }
        ensures none { result ≡ 0 → self.new ≡ self.old }
        ensures told { 0 < result → IsSome (told_of self.new) }
        ensures steps { 0 < result → Steps self.old (take result bytes.now) self.new }
    {
        if self.held.is_empty() {
            self.course.take_record(bytes)
        } else {
            0
        }
    }

    /// Returns what the records of a classic file have in common, if one begins with the next byte.
    ///
    /// Records that lie whole in a piece can be read there. Afterwards `pass` takes their bytes.
    pub fn classic(&self) -> Option<Classic>
        ensures some { IfSome result (λ classic. BeginsClassic self.now classic) }
        ensures none { IfNone result ((c : Classic) → BeginsClassic self.now c → ⊥) }
    {
        if self.held.is_empty() {
            self.course.classic()
        } else {
            None
        }
    }

    /// Takes all of these bytes, and whatever records they complete.
    pub fn pass(&mut self, bytes: &[u8])
        ensures { self.new ≡ take_bytes self.old bytes.now }
    {
        let mut taken = self.pass_whole(bytes);
        while taken < bytes.len() {
            taken += self.next(&bytes[taken..]);
        }
    }

    /// Takes the records of a classic file that are whole at the front of these bytes, and returns the number of their
    /// bytes.
    fn pass_whole(&mut self, bytes: &[u8]) -> usize
        ensures within { result ≤ length bytes.now }
        ensures state { self.new ≡ take_bytes self.old (take result bytes.now) }
    {
        if self.held.is_empty() {
            self.course.pass_whole(bytes)
        } else {
            0
        }
    }

    /// Takes bytes of the file up to the end of the first record in them, and returns their number.
    ///
    /// If they complete no record, all of them are taken.
    pub fn next(&mut self, bytes: &[u8]) -> usize
        ensures within { result ≤ length bytes.now }
        ensures state { self.new ≡ take_bytes self.old (take result bytes.now) }
        // At most one record is completed, by the last byte that is taken.
        ensures records { records_from self.old (take result bytes.now)
            ≡ (if result == 0 then [] else option_to_list (told_of self.new)) }
        ensures all { (result ≡ length bytes.now) ⊎ ((0 < result) × IsSome (told_of self.new)) }
    {
        let count = self.whole_record(bytes);
        if count != 0 {
            return count;
        }
        let mut taken = 0;
        while taken < bytes.len() {
            taken += self.step(&bytes[taken..]);
            if self.course.told().is_some() {
                return taken;
            }
        }
        taken
    }

    /// Returns the head of the record that the last byte completed, if it completed one.
    pub fn told(&self) -> Option<Head>
        ensures { told_of self.now ≡ option_map (record_of self.now.state) result }
    {
        self.course.told()
    }

    /// Returns the captured bytes of the record that was read last.
    pub fn captured(&self) -> &[u8]
        ensures { result.now ≡ self.now.state.captured }
    {
        self.course.captured()
    }

    /// Returns the number of blocks that were no records.
    pub fn skipped(&self) -> u64
        ensures { result ≡ self.now.state.skipped }
    {
        self.course.skipped()
    }

    /// Returns the refusal of the file if it ends here, if there is one.
    pub fn refusal(&self) -> Option<Refusal>
        ensures { result ≡ refusal_of self.now }
    {
        self.course.refusal(self.held.as_slice())
    }

    /// Returns whether the file is refused, whatever follows.
    pub fn is_refused(&self) -> bool
        ensures { result ≡ is_refused self.now.state.phase }
    {
        match self.course.phase() {
            Phase::Refused(_) => true,
            _ => false,
        }
    }
}
