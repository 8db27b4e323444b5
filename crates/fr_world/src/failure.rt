//! The ends of a program that hasn't executed its command.
ghost use Rattle.std.specs.Prelude.{◌≡◌};
ghost use Rattle.fr_world.specs.declared.failure.WorldFailure.TheVariants as failure;
ghost use Rattle.fr_world.specs.Failures.{status_of};

use fr_bus::error::BusError;
use fr_cli::error::OrderError;
use fr_endless::taps::Tap;
use fr_files::error::BenchError;
use fr_session::error::SessionError;
use fr_slots::numbers::NodeId;
use std::error::Error;
use std::fmt;

/// The reason for which the program hasn't executed its command (project-defined). Printed, it is the line on standard
/// error.
#[derive(Clone, Copy, Debug, Drop, PartialEq, Eq)]
pub enum WorldFailure {
    /// The words were no command, or an allocation failed while they were read.
    Words(OrderError),
    /// The allocation of a buffer for reading or writing failed.
    Memory,
    /// The cluster file was refused, or couldn't be read.
    Text(BenchError),
    /// The node whose journal has no room for the windows of the run.
    Room(NodeId),
    /// The world couldn't be made.
    World(BusError),
    /// The session ended before its input did.
    Session(SessionError),
    /// The file couldn't be opened or written.
    Tap(Tap),
    /// The file is an input of the session, or another of its outputs.
    SameFile(Tap),
}

impl fmt::Display for WorldFailure {
    ghost use Rattle.std.specs.Prelude.{Some};
    ghost use Rattle.fr_world.specs.Failures.{failure_text};

    ghost output = { λ failure. Some (failure_text failure) };

    /// Writes the line on standard error, without its line feed.
    fn fmt<W: fmt::Write>(&self, f: &mut fmt::Formatter<W>) -> fmt::Result {
        match self {
            WorldFailure::Words(error) => write!(f, "{error}"),
            WorldFailure::Memory => write!(f, "refused Memory"),
            WorldFailure::Text(error) => write!(f, "refused {error}"),
            WorldFailure::Room(node) => write!(f, "refused NoRoom {node}"),
            WorldFailure::World(error) => write!(f, "refused {error}"),
            WorldFailure::Session(error) => write!(f, "refused {error}"),
            WorldFailure::Tap(Tap::Record) => write!(f, "refused Record"),
            WorldFailure::Tap(Tap::Capture) => write!(f, "refused Capture"),
            WorldFailure::Tap(Tap::Trace(node)) => write!(f, "refused Trace {node}"),
            WorldFailure::SameFile(Tap::Record) => write!(f, "refused SameFile Record"),
            WorldFailure::SameFile(Tap::Capture) => write!(f, "refused SameFile Capture"),
            WorldFailure::SameFile(Tap::Trace(node)) => write!(f, "refused SameFile Trace {node}"),
        }
    }
}

impl Error for WorldFailure {}

impl WorldFailure {
    /// Returns the program's exit status: 2 for words that are no command, 1 for everything else.
    pub fn status(&self) -> u8
        ensures { result ≡ status_of self.now }
    {
        match self {
            WorldFailure::Words(error) => error.status(),
            WorldFailure::Memory
            | WorldFailure::Text(_)
            | WorldFailure::Room(_)
            | WorldFailure::World(_)
            | WorldFailure::Session(_)
            | WorldFailure::Tap(_)
            | WorldFailure::SameFile(_) => 1,
        }
    }
}

impl From<OrderError> for WorldFailure {
    ghost from_gives = { λ error given. given ≡ failure.Words error };

    fn from(error: OrderError) -> WorldFailure {
        WorldFailure::Words(error)
    }
}

impl From<BenchError> for WorldFailure {
    ghost from_gives = { λ error given. given ≡ failure.Text error };

    fn from(error: BenchError) -> WorldFailure {
        WorldFailure::Text(error)
    }
}

impl From<BusError> for WorldFailure {
    ghost from_gives = { λ error given. given ≡ failure.World error };

    fn from(error: BusError) -> WorldFailure {
        WorldFailure::World(error)
    }
}

impl From<SessionError> for WorldFailure {
    ghost from_gives = { λ error given. given ≡ failure.Session error };

    fn from(error: SessionError) -> WorldFailure {
        WorldFailure::Session(error)
    }
}
