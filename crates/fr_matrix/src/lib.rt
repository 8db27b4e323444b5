//! The communication matrix of a run: a row for each cycle, and a column for each of its windows. A cell shows what the
//! bus carried on a channel in the window, or what a node received there (project-defined).
//!
//! ```text
//! let view = View { channel: Channel::A, node: None, from: 0, from_window: 0 };
//! matrix_of(alloc, cluster.params(), world.bus().record(), &view)?; // an SVG picture
//! ```
//!
//! *(project-defined)* marks a rule of this project, and makes no claim about the standard.
//!
//! # Definitions
//!
//! - `Looks`, `Places`: the content of a cell; its row and column, and which columns are drawn and narrow.
//! - `Extents`: the marks of the columns in which something was sent.
//! - `Pages`, `Cells`: the text around the cells, with the key; the cells of a record, and the whole matrix.
//!
//! # Inner workings
//!
//! The place of a cell follows from the windows before it, so the walks along the record count cycles and the windows
//! of the last one. `extent` walks it first, for the columns (`grid`), the page and its headings (`page`), and then
//! `cells` for the cells, and `key` for the key. The observation (`look`) is asked of the record. Each writer's clause
//! gives the whole text that it writes.
#![tactic(auto)]

pub mod cell;
mod cells;
pub mod extent;
pub mod grid;
mod key;
pub mod look;
pub mod matrix;
mod page;
pub mod view;
