//! A journal, which allocates all its memory when it is made.

ghost use Rattle.std.specs.Prelude.{◌≡◌, ◌<◌, ◌≤◌, ◌∷◌, [], ◌++◌, IfOk, IfSome, IsTrue, ◌↔◌, false, length, option_map};
ghost use Rattle.std.specs.Prelude.{slice_get, take};
ghost use Rattle.std.specs.Option.{option_and_then};
ghost use Rattle.fr_journal.specs.Entries.{is_host};
ghost use Rattle.fr_journal.specs.Kept.{host_room, slot_room};
ghost use Rattle.fr_journal.specs.Lent.{whole, HasPayload};
ghost use Rattle.fr_journal.specs.OpenWindow.{closed_window};
ghost use Rattle.fr_slots.specs.Numbers.{most_host_entries, most_slot_entries, most_entries};

use crate::entry::Entry;
use crate::lent::LentEntry;
use crate::short::{
    ShortEntry, fetched_at, lent_entry, mark_at, shortened_commit, shortened_host,
    shortened_observe, shortened_slot, whole_entry,
};
use fr_frame::frame::FRAME_BYTES;
use fr_frame::payload::{PAYLOAD_BYTES, Payload};
use fr_slots::numbers::TaskId;
use fr_slots::window::Window;
use fr_status::seen::Seen;
use std::alloc::{AllocError, Global};
use std::marker::Model;

// All payloads and frames are in one pool, so a short entry takes 36 bytes, and not 568. `get` therefore returns an
// entry by value, which fills room for two frames. A cross-check reads lent entries instead.
/// The entries of an interface, no more than the limits of the journal (project-defined).
#[derive(Drop)]
pub struct Journal {
    host_limit: u32,
    slot_limit: u32,
    host_count: u32,
    slot_count: u32,
    /// The place of the last fetch or observe, or 0 if there is none.
    last_mark: u32,
    /// The entries in short form, with their bytes in the pool, one after another.
    shorts: Vec<ShortEntry>,
    pool: Vec<u8>,
}

impl Model for Journal {
    ghost use Rattle.fr_journal.specs.Kept.{Kept};

    ghost Value = { Kept };

    ghost use Rattle.fr_journal.specs.JournalFields.{kept_in, IsCounted};

    ghost view = { kept_in };

    ghost invariant = { IsCounted };
}

impl Journal {
    ghost use Rattle.fr_journal.specs.declared.entry.Entry.TheVariants as entries;

    /// Returns a journal without entries, and reserves room for as many as its limits allow.
    ///
    /// The limits are `host` for entries of the host, at most 16,384, and `slot` for entries of the controller, at most
    /// 65,536. Fails if an allocation fails.
    pub fn with_limits(alloc: Global, host: u32, slot: u32) -> Result<Journal, AllocError>
        requires host_limit { host ≤ most_host_entries }
        requires slot_limit { slot ≤ most_slot_entries }
        ensures { IfOk result (λ j. j ≡ record { host_limit = host; slot_limit = slot; entries = [] }) }
    {
        let shorts = Vec::with_capacity(alloc, (host + slot) as usize)?;
        // At most 38.5 MB: 254 bytes for an entry of the host, and 524 for one of the controller.
        let bytes = host as usize * PAYLOAD_BYTES + slot as usize * (2 * FRAME_BYTES);
        let pool = Vec::with_capacity(alloc, bytes)?;
        Ok(Journal {
            host_limit: host,
            slot_limit: slot,
            host_count: 0,
            slot_count: 0,
            last_mark: 0,
            shorts,
            pool,
        })
    }

    /// Returns the number of entries of the host that still fit.
    pub fn host_room(&self) -> u32
        ensures { result ≡ host_room self.now }
    {
        self.host_limit - self.host_count
    }

    /// Returns the number of entries of the controller that still fit.
    pub fn slot_room(&self) -> u32
        ensures { result ≡ slot_room self.now }
    {
        self.slot_limit - self.slot_count
    }

    /// Appends an entry of the host, in the reserved room. `host_room` must be above 0.
    pub fn push_host(&mut self, entry: Entry)
        requires kind { IsTrue (is_host entry) }
        requires room { 0 < host_room self.old }
        ensures { self.new ≡ record self.old { entries = self.old.entries ++ entry ∷ [] } }
    {
        let short = shortened_host(&mut self.pool, &entry);
        self.shorts.push_reserved(short);
        self.host_count += 1;
    }

    /// Appends a commit, in the reserved room. `host_room` must be above 0.
    pub fn push_commit(&mut self, task: TaskId, buffer: u8, payload: &Payload)
        requires room { 0 < host_room self.old }
        ensures { self.new ≡ record self.old {
          entries = self.old.entries ++ entries.Commit task buffer payload.now ∷ [];
        } }
    {
        let short = shortened_commit(&mut self.pool, task, buffer, payload);
        self.shorts.push_reserved(short);
        self.host_count += 1;
    }

    /// Appends an entry of the controller, in the reserved room. `slot_room` must be above 0.
    ///
    /// It is inlined, so that a fetch has no room for observed frames.
    #[inline(always)]
    pub fn push_slot(&mut self, entry: Entry)
        requires kind { is_host entry ≡ false }
        requires room { 0 < slot_room self.old }
        ensures { self.new ≡ record self.old { entries = self.old.entries ++ entry ∷ [] } }
    {
        let place = self.len();
        let short = shortened_slot(&mut self.pool, self.last_mark, &entry);
        self.shorts.push_reserved(short);
        self.slot_count += 1;
        self.last_mark = place;
    }

    /// Appends an observe, in the reserved room. `slot_room` must be above 0.
    #[inline(always)]
    pub fn push_observe(&mut self, window: u32, a: &Seen, b: &Seen)
        requires room { 0 < slot_room self.old }
        ensures { self.new ≡ record self.old {
          entries = self.old.entries ++ entries.Observe window a.now b.now ∷ [];
        } }
    {
        let place = self.len();
        let short = shortened_observe(&mut self.pool, self.last_mark, window, a, b);
        self.shorts.push_reserved(short);
        self.slot_count += 1;
        self.last_mark = place;
    }

    /// Returns the number of entries.
    #[tactic(auto, using(crate::proofs::KindLemmas::kinds_fill))]
    pub fn len(&self) -> u32
        ensures value { result ≡ length self.now.entries }
        ensures few { result ≤ most_entries }
    {
        self.host_count + self.slot_count
    }

    /// Returns whether the journal has no entry.
    pub fn is_empty(&self) -> bool
        ensures { IsTrue result ↔ (self.now.entries ≡ []) }
    {
        self.shorts.is_empty()
    }

    /// Returns the entry of this number, counted from 0, if there is one.
    pub fn get(&self, number: u32) -> Option<Entry>
        ensures { result ≡ slice_get self.now.entries number }
    {
        let short = self.shorts.as_slice().get(number as usize)?;
        Some(whole_entry(self.pool.as_slice(), *short))
    }

    /// Returns the same entry as `get`, with its bytes left in the journal.
    pub fn lent(&self, number: u32) -> Option<LentEntry<'_>>
        ensures entry { option_map whole result ≡ slice_get self.now.entries number }
        ensures payload { IfSome result HasPayload }
    {
        let short = self.shorts.as_slice().get(number as usize)?;
        Some(lent_entry(self.pool.as_slice(), *short))
    }

    /// Returns the window that the entry of this number closes, if it is an observe.
    ///
    /// This is the window that is open before the entry. The result is `None` if there is no such window or entry.
    pub fn closed_window(&self, number: u32) -> Option<Window>
        ensures { result
            ≡ option_and_then (closed_window (take number self.now.entries)) (slice_get self.now.entries number) }
    {
        let shorts = self.shorts.as_slice();
        let mark = mark_at(shorts, number)?;
        fetched_at(shorts, mark)
    }
}
