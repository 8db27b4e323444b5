//! Slots, cycles, channels, filters, windows, parameters and the plan of a node: the vocabulary of every other crate.
//!
//! ```text
//! let params = Params::new([3, 10, 1, 20, 5, 4, 6, 120, 1, 4])?;
//! let mut plan = NodePlan::new(1, [0, 0], 256, 4096)?;
//! plan.add_own(Own { slot, channels: Channels::Both, cycles: CycleFilter::default(), sync: true, startup: false })?;
//! plan.add_buffer(Buffer { mode: Mode::Event, filter, words: None, preamble: false })?;
//! let fault = plan.fault(&params); // the first fault of the plan, if there is one
//! ```
//!
//! A chapter in parentheses is one of the FlexRay Protocol Specification 2.1, revision A.
//! *(project-defined)* marks a rule of this project, and makes no claim about the standard.
//!
//! # Definitions
//!
//! - `Numbers`, `Parameters`, `Plans`, `Windows`: limits and ranges of numbers; parameters; plans; windows, and the
//!   windows of a cluster.
//! - `Admission`, `Plans`: admission by filters, receive FIFOs and plans; equality of two channels.
//! - `Faults`, `Sharing`: the faults of a plan, and the properties of a plan without fault; slots that filters share.
//! - `History`: functions of a list of calls, in which each call is judged with the calls before it.
//!
//! Modules that follow the steps of the code, for private functions, with the module that has the meaning:
//!
//! - `is_undivided`, `is_owned_always` in `Faults`: ownership lines for all cycles, which are tested first. Meaning:
//!   `is_owned`, cycle by cycle.
#![tactic(auto)]

pub mod channel;
pub mod copies;
pub mod fault;
pub mod filter;
pub mod numbers;
pub mod params;
pub mod plan;
pub mod sharing;
pub mod window;
