//! Transmit buffers, receive buffers and the receive FIFO of an interface. Each call takes the same time, for a journal
//! of any length.
//!
//! Contracts describe a buffer alone. They see a transmit buffer as a `Transmitter`, a receive buffer as the arrival
//! that it holds, if any, and the receive FIFO as `Waiting`. `fr_interface` derives these from the journal.
//! ```text
//! let mut buffer = TxBuffer::new(Mode::Event);
//! buffer.commit(entry, &payload);
//! if let Some(commit) = buffer.offers() {
//!     buffer.send(); // and the tally counts that commit as sent
//! }
//! ```
//!
//! A chapter in parentheses is one of the FlexRay Protocol Specification 2.1, revision A.
//! *(project-defined)* marks a rule of this project, and makes no claim about the standard.
//!
//! # Definitions
//!
//! Modules that follow the steps of the code, for private functions, with the module that has the meaning:
//!
//! - `Transmitting`, `Waiting`: a buffer or a receive FIFO after one call. Meaning: `Fate`, `Offers`, `Held` and
//!   `Arrivals` in `fr_journal`.
#![tactic(auto)]

pub mod queue;
pub mod receive;
pub mod transmit;
