//! The command lines of the four programs: the words after a program's name, read by the rules of `clap`, the refusal
//! of words, streams that wait where they would block, and closed standard streams (project-defined).
//!
//! ```text
//! let words = words_given(&rt)?;
//! let texts = texts_of(rt.alloc(), words.as_slice())?;
//! bench::order(alloc, &["plan", "cluster.toml"])?; // command::Order::Plan("cluster.toml")
//! bench::order(alloc, &["audit", "trace"]); // Err(OrderError::Usage)
//! view::order(alloc, &["frames", "--until-fault"])?; // ViewOrder::Frames
//! world::command_of(alloc, &["cluster.toml", "--cycles", "4"])?; // WorldCommand
//! monitor::command_of(alloc, &["cluster.toml", "--whole"])?; // MonitorCommand
//! let mut output = WaitingWriter::new(&rt, io::writer(&rt));
//! let _held = hold_standard(&rt); // closed standard streams get no file
//! ```
//!
//! *(project-defined)* marks a rule of this project, and makes no claim about the standard.
//!
//! # Definitions
//!
//! - `Commands`: the parts of commands that programs share; the printed text and the exit status of a refusal.
//! - `BenchOrders`, `ViewOrders`, `WorldCommands`, `MonitorCommands`: the words that are an order of `fr_bench`, an
//!   order of `fr_view`, a command of `fr_world`, a command of `fr_monitor`.
//!
//! # Inner workings
//!
//! The programs' words are read here and not in the programs, so that proofs over `clap` run beside the others and not
//! after the threads.
#![tactic(auto)]

pub mod bench;
pub mod command;
mod commands;
pub mod error;
pub mod monitor;
mod nodes;
pub mod standard;
pub mod view;
pub mod waiting;
pub mod words;
pub mod world;
