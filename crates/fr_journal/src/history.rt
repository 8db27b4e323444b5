//! The history of an interface: a journal in memory, or a past that only contracts see.

ghost use Rattle.std.specs.Prelude.{◌≡◌, ◌∷◌, [], ◌++◌, List, Option, IsTrue, false};
ghost use Rattle.fr_journal.specs.declared.entry.Entry.TheVariants as entries;
ghost use Rattle.fr_journal.specs.Entries.{is_host};
ghost use Rattle.fr_journal.specs.Forms.{Entry};
ghost use Rattle.fr_journal.specs.Histories.{Limits, HasHostRoom, HasSlotRoom};

use crate::entry::Entry;
use crate::journal::Journal;
use fr_frame::payload::Payload;
use fr_past::past::{Past, Tells};
use fr_slots::numbers::TaskId;
use fr_status::seen::Seen;

/// A list of entries that only grows (project-defined).
pub trait History: Drop {
    /// The entries.
    ghost told: { Self → List Entry };

    /// The numbers of entries that fit, or none if there is no limit.
    ghost limits: { Self → Option Limits };

    /// Appends an entry of the host. There must be room for it.
    fn push_host(&mut self, entry: Entry)
        requires kind { IsTrue (is_host entry) }
        requires room { HasHostRoom (limits self.old) (told self.old) }
        ensures entries { told self.new ≡ told self.old ++ entry ∷ [] }
        ensures limits { limits self.new ≡ limits self.old };

    /// Appends a commit. There must be room for it.
    fn push_commit(&mut self, task: TaskId, buffer: u8, payload: &Payload)
        requires room { HasHostRoom (limits self.old) (told self.old) }
        ensures entries { told self.new ≡ told self.old ++ entries.Commit task buffer payload.now ∷ [] }
        ensures limits { limits self.new ≡ limits self.old };

    /// Appends an entry of the controller. There must be room for it.
    fn push_slot(&mut self, entry: Entry)
        requires kind { is_host entry ≡ false }
        requires room { HasSlotRoom (limits self.old) (told self.old) }
        ensures entries { told self.new ≡ told self.old ++ entry ∷ [] }
        ensures limits { limits self.new ≡ limits self.old };

    /// Appends an observe. There must be room for it.
    fn push_observe(&mut self, window: u32, a: &Seen, b: &Seen)
        requires room { HasSlotRoom (limits self.old) (told self.old) }
        ensures entries { told self.new ≡ told self.old ++ entries.Observe window a.now b.now ∷ [] }
        ensures limits { limits self.new ≡ limits self.old };
}

impl History for Journal {
    ghost use Rattle.std.specs.Prelude.{Some};

    ghost told = { λ j. j.entries };

    ghost limits = { λ j. Some (record { host = j.host_limit; slot = j.slot_limit }) };

    #[inline(always)]
    fn push_host(&mut self, entry: Entry) {
        self.push_host(entry);
    }

    #[inline(always)]
    fn push_commit(&mut self, task: TaskId, buffer: u8, payload: &Payload) {
        self.push_commit(task, buffer, payload);
    }

    #[inline(always)]
    fn push_slot(&mut self, entry: Entry) {
        self.push_slot(entry);
    }

    #[inline(always)]
    fn push_observe(&mut self, window: u32, a: &Seen, b: &Seen) {
        self.push_observe(window, a, b);
    }
}

/// Tells an entry by itself.
pub struct Itself;

impl Tells<Entry, Entry> for Itself {
    ghost told = { λ entry. entry };
}

/// A commit, whose payload is lent.
#[derive(Drop)]
pub struct CommitNote<'a> {
    task: TaskId,
    buffer: u8,
    payload: &'a Payload,
}

/// Tells the commit of a note.
pub struct Committed;

impl<'a> Tells<CommitNote<'a>, Entry> for Committed {
    ghost use Rattle.fr_journal.specs.Histories.{commit_told};

    ghost told = { commit_told };
}

/// An observe, whose observations are lent.
#[derive(Drop)]
pub struct ObserveNote<'a> {
    window: u32,
    a: &'a Seen,
    b: &'a Seen,
}

/// Tells the observe of a note.
pub struct Observed;

impl<'a> Tells<ObserveNote<'a>, Entry> for Observed {
    ghost use Rattle.fr_journal.specs.Histories.{observe_told};

    ghost told = { observe_told };
}

impl History for Past<Entry> {
    ghost use Rattle.std.specs.Prelude.{None};

    ghost told = { λ p. p.items };

    ghost limits = { λ p. None };

    #[inline(always)]
    fn push_host(&mut self, entry: Entry) {
        *self = self.then::<Entry, Itself>(&entry);
    }

    #[inline(always)]
    fn push_commit(&mut self, task: TaskId, buffer: u8, payload: &Payload) {
        let note = CommitNote {
            task,
            buffer,
            payload,
        };
        *self = self.then::<CommitNote<'_>, Committed>(&note);
    }

    #[inline(always)]
    fn push_slot(&mut self, entry: Entry) {
        *self = self.then::<Entry, Itself>(&entry);
    }

    #[inline(always)]
    fn push_observe(&mut self, window: u32, a: &Seen, b: &Seen) {
        let note = ObserveNote { window, a, b };
        *self = self.then::<ObserveNote<'_>, Observed>(&note);
    }
}
