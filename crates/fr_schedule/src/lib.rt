//! A cluster as its file describes it: its parameters, the plans of its nodes, the guarded channels, and the sender
//! table.
//!
//! ```text
//! let cluster = Cluster::from_text(alloc, text)?;
//! let nodes = cluster.nodes(); // 1 to 16
//! let sender = cluster.sender(cycle, slot, Channel::A); // at most one node
//! let plan = cluster.node(node)?;
//! ```
//!
//! A chapter in parentheses is one of the FlexRay Protocol Specification 2.1, revision A.
//! *(project-defined)* marks a rule of this project, and makes no claim about the standard.
//!
//! # Definitions
//!
//! - `Descriptions`, `SenderTable`, `Clusters`: the description of a cluster; its sender table; the invariant of a
//!   cluster.
//! - `TableReading`, `NodeTables`, `Files`, `FileFaults`: the value under a key of a cluster file; the tables of a
//!   node; the file; the faults among its nodes.
//!
//! Modules that follow the steps of the code, for private functions, with the module that has the meaning:
//!
//! - `RuleFaults`; `Claims`, `DenseTable`: the rules as the code numbers them; the lines of all nodes, and the table in
//!   which they are entered. Meaning: `FileFaults`; `SenderTable`.
//!
//! # Inner workings
//!
//! 1. `from_table` (`fr_params`) reads the table `params`. Then come the guarded channels and the nodes: values
//!    (`table`), the tables of a node (`node`), the file (`file`).
//! 2. `claims` has the lines of all nodes. They are entered in tables by slot, channel and cycle (`senders`). The
//!    tables give the first conflict of two lines, and so the faults among the nodes (`faults`).
//! 3. `sender` reads from that table. The type of a cluster states that each slot, channel and cycle has at most one
//!    sender.
#![tactic(auto)]

mod claims;
pub mod cluster;
pub mod error;
mod faults;
pub mod file;
mod node;
mod senders;
mod table;
