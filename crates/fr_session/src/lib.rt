//! A session with the world of a cluster: requests in, a line each, and a reply to each before the next is read
//! (project-defined).
//!
//! ```text
//! serve(alloc, &cluster, cycles, &mut world, &mut reader, &mut writer)?;
//! // commit 0 0 0 x0a0b      committed 0
//! // look 0                  window 0 0 0 1 1
//! // fetch 1                 refused WrongTurn
//! // fetch                   refused BadLine 4
//! // mute 0 AB 0-6/2 s*      done
//! // cycle                   open 7 1 0 1 1
//! ```
//!
//! *(project-defined)* marks a rule of this project, and makes no claim about the standard.
//!
//! # Definitions
//!
//! - `Lines`, `Reading`, `Replies`, `RecordWords`, `Queries`: the lines of a text and of a reader; the request of a
//!   line; replies; the words of a record; the answers to queries.
//! - `Keeping`: kept fault lines. `Latest`: the last frames that `receive` returned.
//! - `Marks`: marks of the windows that fault lines name, by which a line is compared with all others at once.
//! - `Sessions`, `Laws`: a session; laws of all sessions.
//! - `Cuts`: sessions that a failing reader or writer ends.
//!
//! Modules that follow the steps of the code, for private functions, with the module that has the meaning:
//!
//! - `line_front`, `TakesPiece`, `ComesFront` in `Lines`: a line piece by piece, of which the front is kept. Meaning:
//!   `Comes`: a whole line.
//!
//! # Inner workings
//!
//! 1. `serve` (`session`) writes the first line. Then it reads a line, answers it and flushes, until the reader ends.
//!    Each reply is prepared in memory (`prepared`), and handed to the writer once it is whole.
//! 2. `next_line` (`lines`) takes the bytes that the reader has up to the line feed, and keeps at most 1,201.
//! 3. `request_of` (`reading`) uses the readers of traces and scenarios (`fr_lines::parts`). A line that is no other
//!    request is read as the fault lines of one line of version 3 (`fr_scenario::fault_lines`).
//! 4. An event is one `World::step`. A fault line is checked against the kept ones (`suits_after` of `fr_runs`) and
//!    kept (`keeping`). Two lines are checked before either is kept. A query writes what the world lends (`queries`).
//! 5. `receive` and `next` look at the frame that is due, and then make the step of `read` or `pop` (`receiving`).
//!    `latest` has the entry of the last frame of each buffer.
//! 6. `window` is the injections of the kept lines (`fr_playing::striking`), then a prepared list of events
//!    (`fr_playing::moving`), and an advance. The requests `cycle` and `run` are windows.
//!
//! The time of a request doesn't grow with the session, with two exceptions. The requests `trace` and `report` grow
//! with the journal, and windows and fault lines with the number of kept fault lines.
#![tactic(auto)]

pub mod error;
pub mod keeping;
pub mod kept;
pub mod latest;
pub mod laws;
pub mod lines;
mod marks;
pub mod noted;
pub mod prepared;
pub mod queries;
pub mod reading;
pub mod receiving;
pub mod replies;
pub mod request;
pub mod session;
pub mod status;
pub mod time;
pub mod words;
