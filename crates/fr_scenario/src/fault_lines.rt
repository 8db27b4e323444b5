//! The fault lines of one line of version 3.
ghost use Rattle.std.specs.Prelude.{◌≡◌, ℕ, List, Some};
ghost use Rattle.fr_names.specs.Names.{NamesOfNode};
ghost use Rattle.fr_runs.specs.declared.fault_line.FaultLine.{FaultLine as Line};
ghost use Rattle.fr_scenario.specs.declared.fault_lines.LineFaults.TheVariants.{One};
ghost use Rattle.fr_scenario.specs.FaultLines.{faults_in, faults_of_line, faults_said};
ghost use Rattle.fr_scenario.specs.LineReading.{fault_line_in};
ghost use Rattle.fr_text.specs.Spaces.{words_of};

use crate::blanks::words_in;
use crate::statement::Statement;
use crate::statements::statement_of;
use fr_names::names::Names;
use fr_runs::fault_line::FaultLine;
use std::alloc::Global;

/// The fault lines of one line of version 3 (project-defined).
#[derive(Drop)]
pub enum LineFaults {
    /// A fault on one channel.
    One(FaultLine),
    /// A fault on both channels, as the line of channel A and that of channel B.
    Both { a: FaultLine, b: FaultLine },
}

/// Returns the fault lines of the statement.
fn faults_said(statement: Option<Statement>) -> Option<LineFaults>
    ensures { result ≡ faults_said statement }
{
    match statement? {
        Statement::Fault(line) => Some(LineFaults::One(line)),
        Statement::Faults { a, b } => Some(LineFaults::Both { a, b }),
        Statement::Nothing | Statement::Calls { .. } | Statement::Expected { .. } => None,
    }
}

/// Returns the fault lines that a line of version 3 spells, in a cluster without names (project-defined).
///
/// The line is given without its line feed. `None` if it spells none: it is the line of a task or an expectation, has
/// no words or no form of a line, or has a number out of its range. The line may have any length.
pub fn faults_of(alloc: Global, line: &[u8]) -> Option<LineFaults>
    ensures { result ≡ faults_in line.now }
{
    let words = words_in(line)?;
    faults_said(statement_of(&Names::none(alloc), words.as_slice()))
}

// For the prover: the clause is the law.
/// A fault line of version 2 is the same fault line in version 3 (project-defined).
pub fn old_line_kept()
    ensures { (names : List NamesOfNode) (line : List ℕ) (f : Line) → fault_line_in (words_of line) ≡ Some f
        → faults_of_line names line ≡ Some (One f) }
{}
