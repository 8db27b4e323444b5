//! The entries of a journal.

ghost use Rattle.std.specs.Prelude.{◌≡◌};

use fr_frame::frame::Frame;
use fr_frame::payload::Payload;
use fr_slots::channel::Channel;
use fr_slots::numbers::TaskId;
use fr_slots::window::Window;
use fr_status::seen::Seen;

/// The origin of a received frame: an entry that observed a window, and one of its channels.
#[derive(Clone, Copy, PartialEq, Eq)]
pub struct Origin {
    /// The number of the entry, from 0.
    pub entry: u32,
    pub channel: Channel,
}

/// The moment of an entry.
#[derive(Clone, Copy, PartialEq, Eq)]
pub struct Moment {
    /// The number of the entry, from 0.
    pub entry: u32,
    /// The cycle of the run, from 0. It is 0 before the first cycle, too.
    pub cycle: u32,
}

/// A valid data frame that a node received, with its origin and the cycle of the run in which it came, from 0.
#[derive(Drop, PartialEq, Eq)]
pub struct Arrival {
    pub origin: Origin,
    pub cycle: u32,
    pub frame: Frame,
}

/// The offer that a fetch handed to the bus on a channel.
#[derive(Clone, Copy, PartialEq, Eq)]
pub enum Offered {
    /// No frame.
    Nothing,
    /// A null frame.
    Null,
    /// A data frame with the payload of the commit of this number.
    Data(u32),
}

/// An entry of a journal: one accepted call. Entries are numbered from 0 in their order.
///
/// The host commits, withdraws, reads and pops. The controller fetches and observes (chapter 9). The type parameters
/// are the forms of a payload, of an observation and of an observed window's number: `Entry` owns its bytes, and a
/// [`LentEntry`](crate::lent::LentEntry) borrows them.
#[derive(Drop, Clone, Copy, PartialEq, Eq)]
pub enum Entry<P = Payload, S = Seen, W = u32> {
    /// A task wrote a payload to a transmit buffer.
    Commit {
        task: TaskId,
        buffer: u8,
        payload: P,
    },
    /// A task withdrew the pending commit of a transmit buffer, if there was one (project-defined).
    ///
    /// `of` is the number of the commit, or `None` if none was pending.
    Withdraw {
        task: TaskId,
        buffer: u8,
        of: Option<u32>,
    },
    /// A task read a receive buffer. It got the frame of this origin, or none if the buffer was empty.
    Read {
        task: TaskId,
        buffer: u8,
        from: Option<Origin>,
    },
    /// A task popped the receive FIFO. It got the oldest frame, of this origin, or none from an empty FIFO.
    Pop {
        task: TaskId,
        from: Option<Origin>,
    },
    /// The controller opened a window, and handed these offers to the bus.
    Fetch {
        window: Window,
        a: Offered,
        b: Offered,
    },
    /// The controller closed the window of this number, with these observations.
    Observe {
        window: W,
        a: S,
        b: S,
    },
}

impl Entry {
    ghost use Rattle.std.specs.Prelude.{◌≡◌};
    ghost use Rattle.fr_journal.specs.Entries.{is_host};

    /// Returns whether the entry is a call of the host.
    pub fn is_host(&self) -> bool
        ensures { result ≡ is_host self.now }
    {
        match self {
            Entry::Commit { .. }
            | Entry::Withdraw { .. }
            | Entry::Read { .. }
            | Entry::Pop { .. } => true,
            Entry::Fetch { .. } | Entry::Observe { .. } => false,
        }
    }

    /// Returns a copy of the entry.
    pub fn duplicate(&self) -> Entry
        ensures { result ≡ self.now }
    {
        match self {
            Entry::Commit {
                task,
                buffer,
                payload,
            } => Entry::Commit {
                task: *task,
                buffer: *buffer,
                payload: payload.duplicate(),
            },
            Entry::Withdraw { task, buffer, of } => Entry::Withdraw {
                task: *task,
                buffer: *buffer,
                of: *of,
            },
            Entry::Read { task, buffer, from } => Entry::Read {
                task: *task,
                buffer: *buffer,
                from: *from,
            },
            Entry::Pop { task, from } => Entry::Pop {
                task: *task,
                from: *from,
            },
            Entry::Fetch { window, a, b } => Entry::Fetch {
                window: *window,
                a: *a,
                b: *b,
            },
            Entry::Observe { window, a, b } => Entry::Observe {
                window: *window,
                a: a.duplicate(),
                b: b.duplicate(),
            },
        }
    }
}
