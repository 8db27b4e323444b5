//! The files of the programs: a file by its name, a whole input up to a limit, a cluster file as a cluster, and a whole
//! output that is written at once (project-defined).
//!
//! ```text
//! let mut file = file_named(rt, "cluster.toml")?; // Err(BenchError::Read) if there is none
//! let cluster = cluster_of(alloc, &mut file)?; // Err(BenchError::TooLong) above 1,048,576 bytes
//! write_whole(&mut output, text.as_slice())?;
//! ```
//!
//! *(project-defined)* marks a rule of this project, and makes no claim about the standard.
//!
//! # Definitions
//!
//! - `Inputs`, `Outputs`: the reading of an input, whose bytes may be unknown; what a failing writer has taken of an
//!   output.
//! - `ClusterFiles`, `NodeTexts`: the reading of a cluster file, and the end of a command that reads one; the texts of
//!   nodes, one after another.
//! - `ErrorNames`: the printed text of an error.
//!
//! # Inner workings
//!
//! 1. `read_up_to` (`input`) reads the whole input, or one byte more than it may have.
//! 2. `cluster_of` (`cluster_file`) reports the parser's failed allocations as `Memory`, and other texts that are no
//!    TOML as `Toml`.
//! 3. `write_whole` (`output`) hands the whole text to the writer, by `write_text`.
//!
//! `BenchError` (`error`) has the errors of the command `midpoint`, too, so that a program has one error for its inputs
//! and outputs.
#![tactic(auto)]

pub mod cluster_file;
pub mod error;
pub mod input;
pub mod named;
pub mod output;
