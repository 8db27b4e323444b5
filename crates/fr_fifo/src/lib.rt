//! The frames of a receive FIFO, and what became of each: popped, overwritten, or waiting.
//!
//! ```text
//! show_fifo(alloc, &mut trace, &mut output)?; // a line for each thing that happens to a frame of the FIFO
//! ```
//!
//! *(project-defined)* marks a rule of this project, and makes no claim about the standard.
//!
//! # Definitions
//!
//! - `FifoText`: the lines of a journal.
//!
//! `FifoSteps` follows the steps of the code, for private functions: how many frames were stored, and how many of them
//! the FIFO holds. The meaning is in `FifoText`.
//!
//! # Inner workings
//!
//! `interface_of` (`fr_trace::audit`) reads the trace as `audit` does. `write_frames` (`show`) goes along the journal
//! once. It counts the stored frames and those that the FIFO holds (`running`). The frames leave the FIFO in the order
//! in which they came, so these two numbers tell which ones an entry removes. `frames` has the lines, `arrivals` the
//! frames that the FIFO stores.
#![tactic(auto)]

mod arrivals;
mod frames;
mod running;
pub mod show;
