//! The contents of a scenario of version 3 in a run.
ghost use Rattle.std.specs.Prelude.{◌≡◌, ◌≤◌, ◌+◌, ◌++◌, map, nat_lt, count_by, length, IfOk, OnOk};
ghost use Rattle.std.specs.List.{list_all, range_with_len, sum_by};
ghost use Rattle.fr_runs.specs.Cycles.{names_cycle};
ghost use Rattle.fr_scenario.specs.ScenarioText.{most_lines};
ghost use Rattle.fr_scenario.specs.RunContents.{calls_in_run, calls_of, expected_in_run, expected_left};
ghost use Rattle.fr_scenario.specs.RunContents.{expected_on_line, faults_in_run, faults_left, faults_on_line};
ghost use Rattle.fr_scenario.specs.RunContents.{has_too_many_lines, is_line_skipped, is_skipped, most_calls};
ghost use Rattle.fr_scenario.specs.RunContents.{numbers_in_run, skipped_in_run, statements_of};

use crate::statement::Statement;
use fr_expecting::expectation::Expectation;
use fr_frame::payload::Payload;
use fr_runs::cycles::RunCycles;
use fr_runs::fault_line::FaultLine;
use fr_runs::faults::has_cycle;
use std::alloc::{AllocError, Global};

/// The largest number of calls in a run (project-defined).
const MOST_CALLS: usize = 262_144;

/// The largest number of statements of a text: with the first and the last line it has at most 4,096 (project-defined).
const MOST_STATEMENTS: usize = 4094;

/// Returns whether the lines have more statements than a text may have.
fn has_more_statements(lines: &[Vec<Statement>]) -> bool
    ensures { result ≡ nat_lt most_lines (sum_by (λ line. length line.items) lines.now + 2) }
{
    let mut room = MOST_STATEMENTS;
    for line in lines {
        let Some(left) = room.checked_sub(line.len()) else {
            return true;
        };
        room = left;
    }
    false
}

/// Returns whether the text has too many lines, each one counted as those for which it stands.
pub(crate) fn has_too_many_lines(lines: &[Vec<Statement>]) -> bool
    ensures { result ≡ has_too_many_lines (map (λ line. line.items) lines.now) }
{
    has_more_statements(lines)
}

/// Returns how many cycles of the run are named, by a look at each.
fn cycles_in_span(cycles: u16, named: RunCycles) -> usize
    ensures { result ≡ count_by (names_cycle named) (range_with_len 0 cycles) }
{
    let mut count = 0;
    for cycle in 0..cycles {
        if named.names(usize::from(cycle)) {
            count += 1;
        }
    }
    count
}

/// Returns how many cycles of the run are named.
fn cycles_named(cycles: u16, named: RunCycles) -> usize
    ensures { result ≡ count_by (names_cycle named) (range_with_len 0 cycles) }
{
    match named {
        RunCycles::Every => usize::from(cycles),
        RunCycles::Only(cycle) => usize::from(cycle < cycles),
        RunCycles::Span { .. } => cycles_in_span(cycles, named),
    }
}

/// Returns the number of calls that the statement makes in the run.
fn calls_of(cycles: u16, statement: &Statement) -> usize
    ensures { result ≡ calls_of cycles statement.now }
{
    match statement {
        Statement::Calls { cycles: named, .. } => cycles_named(cycles, *named),
        Statement::Nothing
        | Statement::Fault(_)
        | Statement::Faults { .. }
        | Statement::Expected { .. } => 0,
    }
}

/// Returns whether the statements make too many calls in the run.
pub(crate) fn has_too_many_calls(cycles: u16, statements: &[Statement]) -> bool
    ensures { result ≡ nat_lt most_calls (calls_in_run cycles statements.now) }
{
    let mut room = MOST_CALLS;
    for statement in statements {
        let Some(left) = room.checked_sub(calls_of(cycles, statement)) else {
            return true;
        };
        room = left;
    }
    false
}

/// Returns whether the statement names cycles, but none that the run has.
fn is_skipped(cycles: u16, statement: &Statement) -> bool
    ensures { result ≡ is_skipped cycles statement.now }
{
    match statement {
        Statement::Nothing => false,
        Statement::Calls { cycles: named, .. } => !has_cycle(cycles, *named),
        Statement::Fault(fault) => !has_cycle(cycles, fault.cycles),
        Statement::Faults { a, .. } => !has_cycle(cycles, a.cycles),
        Statement::Expected { cycles: named, .. } => !has_cycle(cycles, *named),
    }
}

/// Returns whether the line has statements, of which each is skipped.
fn is_line_skipped(cycles: u16, line: &[Statement]) -> bool
    ensures { result ≡ is_line_skipped cycles line.now }
{
    !line.is_empty() && are_skipped(cycles, line)
}

/// Returns whether each of the statements is skipped.
fn are_skipped(cycles: u16, line: &[Statement]) -> bool
    ensures { result ≡ list_all (is_skipped cycles) line.now }
{
    line.iter().all(|statement| is_skipped(cycles, statement))
}

/// Returns the numbers of the lines that name cycles, but none that the run has. The first one has number 2.
pub(crate) fn skipped_in_run(
    alloc: Global,
    cycles: u16,
    lines: &[Vec<Statement>],
) -> Result<Vec<u32>, AllocError>
    requires { length lines.now ≤ most_lines }
    ensures { IfOk result
        (λ skipped. skipped.items ≡ skipped_in_run cycles 2 (map (λ line. line.items) lines.now)) }
{
    let mut skipped = Vec::new(alloc);
    let mut number = 2;
    for line in lines {
        if is_line_skipped(cycles, line.as_slice()) {
            skipped.push(number)?;
        }
        number += 1;
    }
    Ok(skipped)
}

/// Adds the fault lines of the statement that the run has, without the cycles that it lacks, and the number of the
/// statement's line.
fn add_faults(
    cycles: u16,
    statement: &Statement,
    number: u32,
    faults: &mut Vec<FaultLine>,
    numbers: &mut Vec<u32>,
) -> Result<(), AllocError>
    ensures faults { OnOk result (faults.new.items ≡ faults.old.items ++ faults_left cycles statement.now) }
    ensures numbers { OnOk result (numbers.new.items
        ≡ numbers.old.items ++ map (λ _. number) (faults_left cycles statement.now)) }
{
    if is_skipped(cycles, statement) {
        return Ok(());
    }
    match statement {
        Statement::Nothing | Statement::Calls { .. } | Statement::Expected { .. } => {}
        Statement::Fault(fault) => {
            faults.push(fault.within(cycles))?;
            numbers.push(number)?;
        }
        Statement::Faults { a, b } => {
            faults.push(a.within(cycles))?;
            faults.push(b.within(cycles))?;
            numbers.push(number)?;
            numbers.push(number)?;
        }
    }
    Ok(())
}

/// Adds the fault lines of a line that the run has, and the number of the line for each.
fn add_line_faults(
    cycles: u16,
    line: &[Statement],
    number: u32,
    faults: &mut Vec<FaultLine>,
    numbers: &mut Vec<u32>,
) -> Result<(), AllocError>
    ensures faults { OnOk result (faults.new.items ≡ faults.old.items ++ faults_on_line cycles line.now) }
    ensures numbers { OnOk result (numbers.new.items
        ≡ numbers.old.items ++ map (λ _. number) (faults_on_line cycles line.now)) }
{
    for statement in line {
        add_faults(cycles, statement, number, faults, numbers)?;
    }
    Ok(())
}

/// Returns the fault lines that the run has, in their order, and the number of the line of each. The first line has
/// number 2.
pub(crate) fn faults_in_run(
    alloc: Global,
    cycles: u16,
    lines: &[Vec<Statement>],
) -> Result<(Vec<FaultLine>, Vec<u32>), AllocError>
    requires { length lines.now ≤ most_lines }
    ensures faults { IfOk result
        (λ made. made.0.items ≡ faults_in_run cycles (map (λ line. line.items) lines.now)) }
    ensures numbers { IfOk result
        (λ made. made.1.items ≡ numbers_in_run cycles 2 (map (λ line. line.items) lines.now)) }
{
    let (mut faults, mut numbers) = (Vec::new(alloc), Vec::new(alloc));
    let mut number = 2;
    for line in lines {
        add_line_faults(cycles, line.as_slice(), number, &mut faults, &mut numbers)?;
        number += 1;
    }
    Ok((faults, numbers))
}

/// Returns a copy of the payload, if there is one.
fn duplicate_payload(payload: &Option<Payload>) -> Option<Payload>
    ensures { result ≡ payload.now }
{
    match payload {
        Some(payload) => Some(payload.duplicate()),
        None => None,
    }
}

/// Adds the expectation of the statement, whose line has this number, if it has one that isn't skipped.
fn add_expected(
    cycles: u16,
    statement: &Statement,
    number: u32,
    expected: &mut Vec<Expectation>,
) -> Result<(), AllocError>
    ensures { OnOk result (expected.new.items ≡ expected.old.items ++ expected_left cycles number statement.now) }
{
    if is_skipped(cycles, statement) {
        return Ok(());
    }
    if let Statement::Expected {
        node,
        cycles,
        buffer,
        payload,
    } = statement
    {
        expected.push(Expectation {
            line: number,
            node: *node,
            cycles: *cycles,
            buffer: *buffer,
            payload: duplicate_payload(payload),
        })?;
    }
    Ok(())
}

/// Adds the expectations of a line of this number that aren't skipped.
fn add_line_expected(
    cycles: u16,
    line: &[Statement],
    number: u32,
    expected: &mut Vec<Expectation>,
) -> Result<(), AllocError>
    ensures { OnOk result (expected.new.items ≡ expected.old.items ++ expected_on_line cycles number line.now) }
{
    for statement in line {
        add_expected(cycles, statement, number, expected)?;
    }
    Ok(())
}

/// Returns the expectations for cycles of the run, in their order. The first line has number 2.
pub(crate) fn expected_in_run(
    alloc: Global,
    cycles: u16,
    lines: &[Vec<Statement>],
) -> Result<Vec<Expectation>, AllocError>
    requires { length lines.now ≤ most_lines }
    ensures { IfOk result
        (λ expected. expected.items ≡ expected_in_run cycles 2 (map (λ line. line.items) lines.now)) }
{
    let mut expected = Vec::new(alloc);
    let mut number = 2;
    for line in lines {
        add_line_expected(cycles, line.as_slice(), number, &mut expected)?;
        number += 1;
    }
    Ok(expected)
}

/// Adds the statements to others.
fn add_statements(line: Vec<Statement>, statements: &mut Vec<Statement>) -> Result<(), AllocError>
    ensures { OnOk result (statements.new.items ≡ statements.old.items ++ line.items) }
{
    for statement in line {
        statements.push(statement)?;
    }
    Ok(())
}

/// Returns the statements of all lines.
pub(crate) fn statements_of(
    alloc: Global,
    lines: Vec<Vec<Statement>>,
) -> Result<Vec<Statement>, AllocError>
    ensures { IfOk result
        (λ statements. statements.items ≡ statements_of (map (λ line. line.items) lines.items)) }
{
    let mut statements = Vec::new(alloc);
    for line in lines {
        add_statements(line, &mut statements)?;
    }
    Ok(statements)
}
