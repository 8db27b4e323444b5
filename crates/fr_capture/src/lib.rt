//! The observations of a controller, as a capture that other programs open, and as a table.
//!
//! ```text
//! show_trace(alloc, Form::Capture { own: false }, &mut trace, &mut output)?; // the bytes of a capture file
//! show_trace(alloc, Form::Table { all: false }, &mut trace, &mut output)?; // a line for all bytes that came
//! ```
//!
//! A chapter in parentheses is one of the FlexRay Protocol Specification 2.1, revision A.
//! *(project-defined)* marks a rule of this project, and makes no claim about the standard.
//!
//! # Definitions
//!
//! - `Moments`, `Sightings`: the times of a journal's windows, and the observations in them.
//! - `Taking`, `Takers`, `Pcap`: the receivers of a frame; a record of a capture.
//! - `Table`, `Shows`: a line of a table; the output for a trace.
//!
//! Modules that follow the steps of the code, for private functions, with the module that has the meaning:
//!
//! - `Clocks`: the last fetched window and the completed rounds. Meaning: `Moments`, `Sightings`: by the entries
//!   before.
//! - `TakingSteps`, `TakerSteps`, `LineSteps`: receivers and lines for a known frame. Meaning: `Taking`, `Takers`,
//!   `Table`.
//!
//! # Inner workings
//!
//! 1. `interface_of` (`fr_trace::audit`) reads the trace as `audit` does.
//! 2. `write_form` (`show`) goes along the journal once. It keeps the last fetched window, by its entry, with the
//!    completed rounds (`moment`), and writes the observations of A and B (`captured` and `pcap`, `lines` and `table`).
//! 3. A controller's own frame is the one that the fetch handed to the bus, which the interface spells again.
//! 4. For a table line both channels are examined first, since a buffer for both stores only one frame (`taking`,
//!    `takers`).
//! 5. The output gathers in a piece of 64 KiB, which is reserved before anything is written. Each full piece goes to
//!    the writer. So nothing of a refused trace is written, and no second copy of a capture is made.
//!
//! The definition speaks of whole lists: the output of an entry follows from the entries before it (`each_after`), and
//! the number of rounds is a count of them.
#![tactic(auto)]

mod captured;
pub mod form;
mod lines;
pub mod moment;
pub mod pcap;
pub mod show;
mod table;
pub mod takers;
pub mod taking;
