//! The calls of a host, and their answers.

use crate::interface::Receipt;
use fr_frame::payload::Payload;
use fr_journal::entry::Arrival;

/// One call of a task at its node's interface (chapter 9).
#[derive(Drop, PartialEq, Eq)]
pub enum Call {
    /// It gives the payload to the transmit buffer of this number.
    Commit { buffer: u8, payload: Payload },
    /// It takes back the last commit on the transmit buffer of this number, if that is pending.
    Withdraw { buffer: u8 },
    /// It reads the receive buffer of this number.
    Read { buffer: u8 },
    /// It takes the oldest frame of the receive FIFO.
    Pop,
}

/// The answer to an accepted call (project-defined).
#[derive(Drop, PartialEq, Eq)]
pub enum Answer {
    /// The receipt of a commit.
    Committed(Receipt),
    /// The number of the commit that was taken back. None if no commit was pending.
    Withdrawn(Option<u32>),
    /// The frame that was read or popped, with its origin. None if the buffer or the FIFO is empty.
    Frame(Option<Arrival>),
}

impl Call {
    ghost use Rattle.std.specs.Prelude.{◌≡◌};

    /// Returns a copy of the call.
    pub fn duplicate(&self) -> Call
        ensures { result ≡ self.now }
    {
        match self {
            Call::Commit { buffer, payload } => Call::Commit {
                buffer: *buffer,
                payload: payload.duplicate(),
            },
            Call::Withdraw { buffer } => Call::Withdraw { buffer: *buffer },
            Call::Read { buffer } => Call::Read { buffer: *buffer },
            Call::Pop => Call::Pop,
        }
    }
}
