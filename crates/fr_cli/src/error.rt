//! Refusals of the words after a program's name.
ghost use Rattle.std.specs.Prelude.{◌≡◌};
ghost use Rattle.clap.specs.Words.{kind_of};
ghost use Rattle.fr_cli.specs.Commands.{order_error_of, status_of_words};
ghost use Rattle.fr_cli.specs.declared.error.OrderError.TheVariants as refusal;

use clap::error::ErrorKind;
use std::alloc::AllocError;
use std::error::Error;
use std::fmt;

/// Reasons to refuse words (project-defined). Printed, it is the line on standard error.
#[derive(Clone, Copy, Debug, Drop, PartialEq, Eq)]
pub enum OrderError {
    /// The words are no command: a word is unknown, too many, missing, or out of its range.
    Usage,
    /// An allocation failed.
    Memory,
}

impl fmt::Display for OrderError {
    ghost use Rattle.std.specs.Prelude.{Some};
    ghost use Rattle.fr_cli.specs.Commands.{order_error_text};

    ghost output = { λ error. Some (order_error_text error) };

    /// Writes the line on standard error, without its line feed.
    fn fmt<W: fmt::Write>(&self, f: &mut fmt::Formatter<W>) -> fmt::Result {
        match self {
            OrderError::Usage => write!(f, "usage"),
            OrderError::Memory => write!(f, "refused Memory"),
        }
    }
}

impl Error for OrderError {}

impl OrderError {
    /// Returns the program's exit status: 2 for words that are no command, 1 if an allocation fails.
    pub fn status(&self) -> u8
        ensures { result ≡ status_of_words self.now }
    {
        match self {
            OrderError::Usage => 2,
            OrderError::Memory => 1,
        }
    }
}

impl From<AllocError> for OrderError {
    ghost from_gives = { λ _ given. given ≡ refusal.Memory };

    fn from(_error: AllocError) -> OrderError {
        OrderError::Memory
    }
}

impl From<clap::Error> for OrderError {
    ghost from_gives = { λ error given. given ≡ order_error_of (kind_of error) };

    fn from(error: clap::Error) -> OrderError {
        match error.kind() {
            ErrorKind::OutOfMemory => OrderError::Memory,
            _ => OrderError::Usage,
        }
    }
}
