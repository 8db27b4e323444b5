//! The audit of a bus recording: each finding as a line, a summary, and the reader and the writer between which they
//! come (project-defined).
//!
//! ```text
//! let mut monitor = Monitor::new(alloc, rules)?;
//! monitor.follow(&mut reader, &mut writer)?; // the findings as they come, and the summary
//! ```
//!
//! *(project-defined)* marks a rule of this project, and makes no claim about the standard.
//!
//! # Definitions
//!
//! - `LineText`, `SummaryText`: the text of a line, and of a summary.
//! - `FrameText`: the line of a frame, and of a cycle that a waiting frame opened.
//! - `Monitoring`: the text of a whole recording, and the result of a command that reads one.
//! - `ErrorNames`: the printed text of an error.
//!
//! # Inner workings
//!
//! `follow` reads pieces, and flushes the writer before each read, so that no finding waits for input. Each record in
//! a piece is judged, and its lines are written, before the next one is looked at.
#![tactic(auto)]

mod digits;
pub mod error;
pub mod frames;
pub mod line;
pub mod monitor;
mod names;
pub mod summary;
