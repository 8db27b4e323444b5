//! The links of a cluster: who sends in each slot, in which cycles, and which receive buffers and FIFOs are for it.
//!
//! ```text
//! let links = links_of(alloc, &cluster)?; // slot 1 on channel A: buffer 0 of node 0, in every cycle
//! let receivers = receivers_of(alloc, cluster.plans(), &links[0])?; // buffer 1 of node 2
//! show_links(alloc, &mut file, &mut output)?; // the text of `fr_view links`
//! ```
//!
//! A chapter in parentheses is one of the FlexRay Protocol Specification 2.1, revision A.
//! *(project-defined)* marks a rule of this project, and makes no claim about the standard.
//!
//! # Definitions
//!
//! - `Cycles`: the cycles that two filters have in common.
//! - `Links`: the links of a cluster, in their order.
//! - `Receivers`: the receivers of a link, by the cycle counts 0 to 63.
//! - `LinkText`, `Commands`: the text, and the command on a whole cluster file.
//!
//! # Inner workings
//!
//! 1. The ownership lines for each static slot and channel are gathered once, and then taken in the order of their
//!    first cycles (`links`).
//! 2. A receive buffer is tested in each cycle of the link (`receivers`), so that the code has the definition's form.
#![tactic(auto)]

pub mod cycles;
pub mod links;
pub mod receivers;
pub mod text;
