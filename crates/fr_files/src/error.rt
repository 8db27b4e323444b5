//! Refusals of the commands that read one text.
ghost use Rattle.std.specs.Prelude.{◌≡◌};
ghost use Rattle.fr_files.specs.ClusterFiles.{given_of};
ghost use Rattle.fr_files.specs.declared.error.BenchError.TheVariants as refusal;

use fr_midpoint::ranks::MidpointError;
use fr_params::error::ParamError;
use fr_schedule::error::ConfigError;
use std::error::Error;
use std::fmt;

/// Reasons for which an input isn't read, or an output isn't written (project-defined).
///
/// Printed, it is the error's name, and for an error of a crate below the names and values of that error.
#[derive(Clone, Copy, Debug, Drop, PartialEq, Eq)]
pub enum BenchError {
    /// The input has more bytes than the command reads.
    TooLong,
    /// The input couldn't be read.
    Read,
    /// The output couldn't be written.
    Write,
    /// An allocation failed.
    Memory,
    /// A word of the input of `midpoint` isn't a number.
    BadNumber,
    /// The cluster file is refused for another reason than a failed allocation.
    Config(ConfigError),
    /// The values have no midpoint.
    Midpoint(MidpointError),
}

impl fmt::Display for BenchError {
    ghost use Rattle.std.specs.Prelude.{Some};
    ghost use Rattle.fr_files.specs.ErrorNames.{bench_error_text};

    ghost output = { λ error. Some (bench_error_text error) };

    /// Writes the error's name, or the error of the crate below.
    fn fmt<W: fmt::Write>(&self, f: &mut fmt::Formatter<W>) -> fmt::Result {
        match self {
            BenchError::TooLong => write!(f, "TooLong"),
            BenchError::Read => write!(f, "Read"),
            BenchError::Write => write!(f, "Write"),
            BenchError::Memory => write!(f, "Memory"),
            BenchError::BadNumber => write!(f, "BadNumber"),
            BenchError::Config(error) => write!(f, "{}", ConfigText(*error)),
            BenchError::Midpoint(error) => write!(f, "{error}"),
        }
    }
}

/// The text of a parameter's error.
#[derive(Clone, Copy)]
struct ParamText(ParamError);

impl fmt::Display for ParamText {
    ghost use Rattle.std.specs.Prelude.{Some};
    ghost use Rattle.fr_files.specs.ErrorNames.{param_error_text};

    ghost output = { λ text. Some (param_error_text text.0) };

    /// Writes the name, and the key at fault if there is one.
    fn fmt<W: fmt::Write>(&self, f: &mut fmt::Formatter<W>) -> fmt::Result {
        match self.0 {
            ParamError::Missing(key) => write!(f, "Missing {key}"),
            ParamError::NotANumber(key) => write!(f, "NotANumber {key}"),
            ParamError::OutOfRange(key) => write!(f, "OutOfRange {key}"),
            ParamError::CycleSum => write!(f, "CycleSum"),
        }
    }
}

// The texts that the crates below derive have no clause.
/// The text of a cluster file's error.
#[derive(Clone, Copy)]
struct ConfigText(ConfigError);

impl fmt::Display for ConfigText {
    ghost use Rattle.std.specs.Prelude.{Some};
    ghost use Rattle.fr_files.specs.ErrorNames.{config_error_text};

    ghost output = { λ text. Some (config_error_text text.0) };

    /// Writes the name, and the place of the fault.
    fn fmt<W: fmt::Write>(&self, f: &mut fmt::Formatter<W>) -> fmt::Result {
        match self.0 {
            ConfigError::Toml => write!(f, "Toml"),
            ConfigError::Params(error) => write!(f, "Params {}", ParamText(error)),
            ConfigError::BadGuard => write!(f, "BadGuard"),
            ConfigError::TooManyNodes => write!(f, "TooManyNodes"),
            ConfigError::BadNode(node) => write!(f, "BadNode {node}"),
            ConfigError::BadBuffer(node, buffer) => write!(f, "BadBuffer {node} {buffer}"),
            ConfigError::NotOwned(node, buffer) => write!(f, "NotOwned {node} {buffer}"),
            ConfigError::DynamicBoth(node, buffer) => write!(f, "DynamicBoth {node} {buffer}"),
            ConfigError::Overlap(slot, channel, cycle) => {
                write!(f, "Overlap {slot} {channel} {cycle}")
            }
            ConfigError::TooLong(node, buffer) => write!(f, "TooLong {node} {buffer}"),
            ConfigError::Memory => write!(f, "Memory"),
        }
    }
}

impl Error for BenchError {}

impl From<ConfigError> for BenchError {
    ghost from_gives = { λ error given. given ≡ given_of error };

    fn from(error: ConfigError) -> BenchError {
        match error {
            ConfigError::Memory => BenchError::Memory,
            _ => BenchError::Config(error),
        }
    }
}

impl From<MidpointError> for BenchError {
    ghost from_gives = { λ error given. given ≡ refusal.Midpoint error };

    fn from(error: MidpointError) -> BenchError {
        BenchError::Midpoint(error)
    }
}
