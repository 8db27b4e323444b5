//! The parts of SVG texts that several pictures have (project-defined).
//!
//! ```text
//! open_picture(&mut text, 1160, 400, 11600, 4000)?; // <svg xmlns='http://www.w3.org/2000/svg' width='1160' ..
//! open_group(&mut text, "axis", "static slots")?; // <g class='axis'><title>static slots</title>
//! write_rect(&mut text, 20, 30, 100, 40)?; // <rect x='20' y='30' width='100' height='40'/>
//! write_number(&mut text, 20, 30, 7)?; // <text x='20' y='30'>7</text>
//! close_group(&mut text)?; // </g>
//! close_picture(&mut text)?; // </svg>
//! ```
//!
//! All attributes stand in single quotes. Texts and classes are written as they are, so they have no `<`, `&` or `'`.
//!
//! *(project-defined)* marks a rule of this project, and makes no claim about the standard.
//!
//! # Definitions
//!
//! - `Elements`, `Styles`: the text of each element; the rule of texts, and the colours of nodes.
#![tactic(auto)]

pub mod elements;
pub mod style;
