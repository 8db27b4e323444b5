//! The worst case of a schedule: where dynamic slots can open in runs without faults, which transmit buffers are always
//! sent, and the greatest time from a commit to the end of its frame.
//!
//! ```text
//! let openings = openings_of(alloc, &cluster)?; // the latest start of each dynamic slot in each cycle
//! let latency = latency_of(&openings, &cluster, plan, buffer); // State::Guaranteed, at most 5021 macroticks
//! let way = way_to(alloc, &cluster, slot, Channel::A)?; // the frames before the latest start of a slot
//! show_latencies(alloc, &mut file, &mut output)?; // the text of `fr_view latency`
//! ```
//!
//! A chapter in parentheses is one of the FlexRay Protocol Specification 2.1, revision A.
//! *(project-defined)* marks a rule of this project, and makes no claim about the standard.
//!
//! # Definitions
//!
//! - `Openings`, `Lanes`, `Exact`, `Bounds`: the minislots at which a dynamic slot can begin and open; the lanes that a
//!   run can have; that the starts are exactly those of the lanes; the sum of the longest rows.
//! - `Latencies`, `Loads`, `Below`: the latency of a transmit buffer; the load of a channel; words on numbers.
//! - `Ways`: the frames of a way to a minislot.
//! - `LatencyText`, `WayText`, `Commands`: the texts, and the command on a whole cluster file.
//!
//! Modules that follow the steps of the code, for private functions, with the module that has the meaning:
//!
//! - `Cells`, `Rows`, `Tables`, `Marks`: the bits, rows, answers and marks in which minislots are kept. Meaning:
//!   `Openings`.
//!
//! # Inner workings
//!
//! 1. A cell has a bit for each cycle, so that one step serves all 64. The first cell of a slot stands for the minislot
//!    after one minislot for each slot before, and a slot in which nothing is sent leaves the cells as they are
//!    (`openings`).
//! 2. The row of a slot has its last minislots for each cycle. `latency` and `load` read the rows of a buffer's slot.
//! 3. A way keeps the minislots of every slot in one cycle, and follows them back from the latest start (`way`).
#![tactic(auto)]

mod cells;
pub mod latency;
pub mod load;
pub mod openings;
pub mod text;
pub mod way;
pub mod way_text;
