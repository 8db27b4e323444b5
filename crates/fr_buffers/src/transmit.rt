//! Transmit buffers.

ghost use Rattle.std.specs.Prelude.{◌≡◌, ◌+◌, ◌<◌, ◌≤◌, ◌^◌, IsSome, option_map};
ghost use Rattle.std.specs.Option.{option_copied};
ghost use Rattle.fr_buffers.specs.Transmitting.{new_transmitter, with_commit, entry_of, payload_of, offer_of};
ghost use Rattle.fr_buffers.specs.Transmitting.{after_send, pending_of, after_withdraw};

use fr_frame::payload::Payload;
use fr_journal::fate::Tally;
use fr_slots::plan::Mode;
use std::marker::Model;

/// A commit that a buffer holds.
#[derive(Drop, PartialEq, Eq)]
pub struct HeldCommit {
    /// The number of its entry, from 0.
    pub entry: u32,
    /// The payload of the commit.
    pub payload: Payload,
}

// The tally is kept as numbers, since walking the journal for each commit would be quadratic. The definition (`Fate`)
// still derives the fate of each commit from the entries after it.
/// The state of a transmit buffer: its mode, its last commit unless withdrawn, and its tally. Chapter 9; the modes,
/// withdrawing and the tally are project-defined.
#[derive(Drop)]
pub struct TxBuffer {
    mode: Mode,
    last: Option<HeldCommit>,
    tally: Tally,
}

impl Model for TxBuffer {
    ghost use Rattle.fr_buffers.specs.Transmitting.{Transmitter};

    ghost Value = { Transmitter };

    ghost use Rattle.fr_buffers.specs.TransmitFields.{transmitter_in, IsBalanced};

    ghost view = { transmitter_in };

    ghost invariant = { IsBalanced };
}

impl TxBuffer {
    /// Returns a buffer without a commit. In mode `Receive` it never offers anything.
    pub fn new(mode: Mode) -> TxBuffer
        ensures { result ≡ new_transmitter mode }
    {
        TxBuffer {
            mode,
            last: None,
            tally: Tally {
                committed: 0,
                sent: 0,
                overwritten: 0,
                pending: 0,
                withdrawn: 0,
            },
        }
    }

    /// Holds the commit of this entry in place of the one before, which is overwritten if it is pending.
    ///
    /// The number of commits, with one more, must fit 32 bits.
    pub fn commit(&mut self, entry: u32, payload: &Payload)
        requires { self.old.tally.committed + 1 < 2 ^ 32 }
        ensures { self.new ≡ with_commit self.old (record { entry = entry; payload = payload.now }) }
    {
        if let Some(held) = &mut self.last {
            replace(held, entry, payload);
        } else {
            self.last = Some(HeldCommit {
                entry,
                payload: payload.duplicate(),
            });
        }
        self.tally = Tally {
            committed: self.tally.committed + 1,
            sent: self.tally.sent,
            overwritten: self.tally.overwritten + self.tally.pending,
            pending: 1,
            withdrawn: self.tally.withdrawn,
        };
    }

    /// Returns the entry of the commit that the buffer offers, if it has one to offer. In event mode it is the last
    /// commit if that is pending, in state mode the last commit unless it was withdrawn.
    pub fn offers(&self) -> Option<u32>
        ensures { result ≡ offer_of self.now }
    {
        match self.mode {
            Mode::Event => self.pending(),
            Mode::State => self.entry(),
            Mode::Receive => None,
        }
    }

    /// Returns the entry of the held commit, sent or not.
    pub fn entry(&self) -> Option<u32>
        ensures { result ≡ entry_of self.now }
    {
        self.last.as_ref().map(|commit| commit.entry)
    }

    /// Returns the entry of the held commit, if it is pending.
    pub fn pending(&self) -> Option<u32>
        ensures { result ≡ pending_of self.now }
    {
        if self.tally.pending == 1 {
            self.entry()
        } else {
            None
        }
    }

    /// Returns the payload of the held commit, sent or not.
    pub fn payload(&self) -> Option<&Payload>
        ensures { option_copied result ≡ payload_of self.now }
    {
        self.last.as_ref().map(|commit| &commit.payload)
    }

    /// Marks the offered commit as sent, which it stays if it is sent again.
    pub fn send(&mut self)
        requires { IsSome (offer_of self.old) }
        ensures { self.new ≡ after_send self.old }
    {
        self.tally = Tally {
            committed: self.tally.committed,
            sent: self.tally.sent + self.tally.pending,
            overwritten: self.tally.overwritten,
            pending: 0,
            withdrawn: self.tally.withdrawn,
        };
    }

    /// Withdraws the held commit if it is pending, and returns its entry (project-defined).
    ///
    /// The buffer is empty then: no earlier commit comes back. If no commit is pending, nothing changes. A commit that
    /// was sent stays, and is offered again in state mode.
    pub fn withdraw(&mut self) -> Option<u32>
        ensures answer { result ≡ pending_of self.old }
        ensures buffer { self.new ≡ after_withdraw self.old }
    {
        if self.tally.pending != 1 {
            return None;
        }
        let entry = self.entry();
        self.last = None;
        self.tally.pending = 0;
        self.tally.withdrawn += 1;
        entry
    }

    /// Returns the tally of the commits: sent, overwritten, withdrawn and pending, the last at most one.
    pub fn tally(&self) -> Tally
        ensures value { result ≡ self.now.tally }
        ensures fates { result.committed ≡ result.sent + result.overwritten + result.pending + result.withdrawn }
        ensures one_pending { result.pending ≤ 1 }
    {
        self.tally
    }
}

/// Replaces the held commit by this one.
fn replace(held: &mut HeldCommit, entry: u32, payload: &Payload)
    ensures { held.new ≡ record { entry = entry; payload = payload.now } }
{
    held.entry = entry;
    held.payload.set_from(payload);
}
