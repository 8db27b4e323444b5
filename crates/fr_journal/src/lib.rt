//! The journal of a controller host interface.
//!
//! The definitions over journals are in `specs/`: the open window, the fate of a commit, offers, held frames, the
//! receive FIFO, the status counters, and legal journals.
//!
//! ```text
//! let mut journal = Journal::with_limits(alloc, 256, 4096)?;
//! if journal.host_room() > 0 {
//!     journal.push_host(Entry::Read { task, buffer: 0, from: None });
//! }
//! let entries = journal.len();
//! ```
//!
//! A chapter in parentheses is one of the FlexRay Protocol Specification 2.1, revision A.
//! *(project-defined)* marks a rule of this project, and makes no claim about the standard.
//!
//! # Definitions
//!
//! - `Entries`, `Fate`, `Offers`, `Held`, `Arrivals`, `Counts`, `Legal`: the kinds of entries; the fate of a commit;
//!   offers; held frames; the receive FIFO; status counters; legal journals.
//! - `Histories`: the room of a history, and the entries that notes tell.
//!
//! Modules that follow the steps of the code, for private functions, with the module that has the meaning:
//!
//! - `Shortened`: short entries, and the pool of their bytes. Meaning: `Kept`, a list of whole entries.
//! - `Marks`: the last fetch or observe before an observe, whose place a short observe has. Meaning: `OpenWindow`, over
//!   all entries.
//! - `Lent`: an entry that borrows its bytes. Meaning: `Entry` in `Forms`, with its bytes.
//!
//! # Inner workings
//!
//! A journal keeps short entries (`short`): numbers, and the place of a payload or of observed bytes in one pool. Both
//! lists get their full room in `with_limits`, and each push only appends to them. So a restored entry never changes
//! (`ShortLemmas`).
//!
//! - `get` restores an entry.
//! - `closed_window` reads two entries, since a short observe has the place of the last fetch or observe before it
//!   (`MarkLemmas`).
//! - `push_commit` and `push_observe` take their bytes by reference.
//!
//! A `History` (`history`) is what an interface adds its entries to: a journal, or a past of `fr_past`, which takes no
//! memory. Notes that borrow a payload or observations tell a past its entries, so nothing is copied for it.
#![tactic(auto)]

pub mod entry;
pub mod fate;
pub mod history;
pub mod journal;
pub mod lent;
mod short;
