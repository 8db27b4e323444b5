//! Laws between definitions of several crates, where a definition follows the code. The crate has no code: each law is
//! a clause of a function in `laws`, whose body is empty.
//!
//! *(project-defined)* marks a rule of this project, and makes no claim about the standard.
//!
//! # Definitions
//!
//! - `Determined`: sessions and single-threaded runs in which no allocation fails.
//! - `Spelled`, `Replied`: the spelling of each request, and the lines of a reply.
//! - `PlanRows`, `DynamicRows`, `GuardRows`: the rows of a plan, against the sender table and the open parts of the
//!   cycle.
//! - `Misfits`: the word that `why` names as wrong, against the lines that can be read.
//! - `Cycles`: the cycle of the run to which a window or a call belongs.
//! - `Starts`: the macroticks at which static slots and minislots begin.
//! - `Rising`: the times of a capture.
//! - `Receivers`: the receivers in `commits` and in tables, against those of journals.
//! - `Linked`: links, against transmit buffers; their receivers, against those of frames.
//! - `Listening`: the listener of a capture of the bus.
//! - `Recordings`: a capture of the bus, read back as a recording.
//! - `Ends`: the ends of transmissions in `record` and `commits`, against what is heard.
//! - `FaultLines`: the line numbers of faults in the record of a run.
//! - `FaultRuns`: a session of fault lines, against the single-threaded run with these faults.
//!
//! # Laws
//!
//! - `SessionLemmas`: `sessions_determined`. The lines of a session determine its replies and its state. `MoveLemmas`
//!   and `StepLemmas` have the windows and events.
//! - `PlayLemmas`: `runs_determined`. A scenario determines a single-threaded run.
//! - `SpelledLemmas`: `read_again`. The spelling of a request is read as this request.
//! - `RepliedLemmas`: `are_whole`. Each reply is one line, or a counted block of lines.
//! - `PlanRowLemmas`: `plans_tables`. The lines of a plan for static slots name exactly the senders.
//! - `DynamicRowLemmas`: `dynamic_tables`. So do those for dynamic slots.
//! - `GuardRowLemmas`: `plans_guards`. The lines of a plan for guardians have exactly the open macroticks, and a
//!   transmission in a static slot passes exactly if its slot is among them.
//! - `MisfitLemmas`: `wrong_words`. No line after the first can be read with the words up to the one that `why` names.
//! - `CycleLemmas`: `window_cycles`, `sent_cycles`, `call_cycles`, `line_cycles`. All definitions of a cycle of the
//!   run agree.
//! - `StartLemmas`: `pictured_slots`, `captured_slots`, `captured_minislots`, `starts_of_run`, `minislots_of_run`.
//!   Pictures, captures and latencies count from the starts of the layout.
//! - `RisingLemmas`: `captures_rising`. The observations of a legal interface have rising times.
//! - `ReceiverLemmas`: `buffers_stored`, `queues_filled`, `receivers_same`. `commits` and tables name the receivers
//!   that the journals have.
//! - `LinkedLemmas`, `SenderLemmas`: `takers_linked`, `senders_linked`, `frames_linked`. Each transmit buffer has its
//!   links, and what stores its frames is among their receivers.
//! - `ListeningLemmas`: `is_heard_alike`, `is_captured_alike`, `is_own_or_conflict`. A listener hears what a silent
//!   node observes.
//! - `RecordingLemmas`: `is_same_capture`, `is_read_again`, `has_no_alarm`. What `fr_view bus` writes is read back as
//!   what a listener received. In a run without faults it has no finding.
//! - `EndLemmas`: `are_ends_heard`. The printed end of a transmission is what a listener hears of it.
//! - `FaultRunLemmas`: `sessions_played`. A session of fault lines and a run leads to the world of the single-threaded
//!   run.
//! - `FaultLineLemmas`: `faults_numbered`, `offers_unnumbered`. Each babble and each muted offer has a line number, and
//!   no other transmission has one.
#![tactic(auto)]

pub mod laws;
