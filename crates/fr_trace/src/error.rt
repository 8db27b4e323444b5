//! Reasons to refuse a trace.

use std::error::Error;
use std::fmt;

/// Reasons to refuse a trace. A number is that of the line at fault, counted from 1.
#[derive(Clone, Copy, Debug, PartialEq, Eq)]
pub enum TraceError {
    /// The first line is none of `frtrace 1`, `frtrace 2` and `frtrace 3`, each with its line feed.
    BadMagic,
    /// The line has no form of the format, a wrong place, or a number out of its range.
    ///
    /// Bytes after the line `end` also give this error.
    BadLine(u64),
    /// The line has more than 1200 bytes before its line feed.
    LineTooLong(u64),
    /// The parameters are out of range, the plan has a fault, or the call of the line is refused.
    Refused(u64),
    /// The call of the line has another answer.
    WrongAnswer(u64),
    /// The input ends before the line feed of `end`.
    Truncated,
    /// The reader failed.
    Read,
    /// The writer failed.
    Write,
    /// An allocation failed.
    Memory,
}

impl fmt::Display for TraceError {
    ghost use Rattle.std.specs.Prelude.{Some};
    ghost use Rattle.fr_trace.specs.ErrorNames.{trace_error_text};

    ghost output = { λ error. Some (trace_error_text error) };

    /// Writes the refusal's name, and the number of the line at fault if it has one.
    fn fmt<W: fmt::Write>(&self, f: &mut fmt::Formatter<W>) -> fmt::Result {
        match self {
            TraceError::BadMagic => write!(f, "BadMagic"),
            TraceError::BadLine(line) => write!(f, "BadLine {line}"),
            TraceError::LineTooLong(line) => write!(f, "LineTooLong {line}"),
            TraceError::Refused(line) => write!(f, "Refused {line}"),
            TraceError::WrongAnswer(line) => write!(f, "WrongAnswer {line}"),
            TraceError::Truncated => write!(f, "Truncated"),
            TraceError::Read => write!(f, "Read"),
            TraceError::Write => write!(f, "Write"),
            TraceError::Memory => write!(f, "Memory"),
        }
    }
}

impl Error for TraceError {}
