//! A scenario, and the text that spells it.
ghost use Rattle.std.specs.Prelude.{◌≡◌, ◌++◌, ◌≤◌, None, Ok, Err, IfOk, IfErr, IfSome, length, map};
ghost use Rattle.fr_scenario.specs.declared.error.ScenarioError.TheVariants as error;
ghost use Rattle.fr_scenario.specs.Gathering.{none_yet, kept_from};
ghost use Rattle.fr_scenario.specs.Reading.{lines_in, read_text, statements_in, told_from};
ghost use Rattle.fr_scenario.specs.ScenarioText.{first_line, most_lines};
ghost use Rattle.fr_lines.specs.Spelling.{line_feed};

use crate::blanks::words_in;
use crate::error::ScenarioError;
use crate::gathered::Gathered;
use crate::left::{LAST_LINE, Left};
use crate::lines::line_of;
use crate::lists::statements_of_line;
use crate::run_calls::scripts_in_run;
use crate::run_contents::{
    expected_in_run, faults_in_run, has_too_many_calls, has_too_many_lines, skipped_in_run,
    statements_of,
};
use crate::statement::Statement;
use crate::statements::are_end;
use crate::version::Version;
use fr_core::script::Script;
use fr_expecting::expectation::Expectation;
use fr_names::names::Names;
use fr_runs::fault_line::FaultLine;
use std::alloc::{AllocError, Global};
use std::marker::Model;

/// The calls of a cluster's tasks in a run, and the faults of the run (project-defined).
#[derive(Drop)]
pub struct Scenario {
    scripts: Vec<Script>,
    faults: Vec<FaultLine>,
    numbers: Vec<u32>,
    skipped: Vec<u32>,
    expected: Vec<Expectation>,
}

impl Model for Scenario {
    ghost use Rattle.fr_scenario.specs.Contents.{Contents};

    ghost Value = { Contents };

    ghost use Rattle.fr_scenario.specs.ScenarioFields.{contents_in, HasNoAnswers};

    ghost view = { contents_in };

    ghost invariant = { HasNoAnswers };
}

/// Returns the version that the first line names, and the text after that line.
fn begun(text: &[u8]) -> Option<(Version, &[u8])>
    ensures first { IfSome result (λ begun. text.now ≡ (first_line begun.0 ++ line_feed) ++ begun.1.now) }
    ensures other { result ≡ None → read_text text.now ≡ Err error.BadMagic }
{
    if let Some(rest) = text.strip_prefix(b"frscenario 1\n".as_slice()) {
        return Some((Version::One, rest));
    }
    let rest = text.strip_prefix(b"frscenario 2\n".as_slice())?;
    Some((Version::Two, rest))
}

/// Returns the lines after the first one, in this version.
fn body_of(alloc: Global, version: Version, text: &[u8]) -> Result<Gathered, ScenarioError>
    ensures found { IfOk result
        (λ gathered. kept_from 2 none_yet (told_from version 2 (lines_in text.now)) ≡ Ok gathered) }
    ensures refused { IfErr result (λ e. ¬ (e ≡ error.Memory) → told_from version 2 (lines_in text.now) ≡ Err e) }
{
    let mut gathered = Gathered::new(alloc)?;
    let mut left = Left::new(text);
    for number in 2..LAST_LINE + 1 {
        let line = left.next_line(number)?;
        if line == b"end".as_slice() {
            return if left.is_empty() {
                Ok(gathered)
            } else {
                Err(ScenarioError::BadLine(number + 1))
            };
        }
        let Some(line) = line_of(version, line) else {
            return Err(ScenarioError::BadLine(number));
        };
        gathered.add(number, line)?;
    }
    // Line 4097 gives `TooManyLines` for any content, unless line 4096 was `end`: then it gives `BadLine 4097`.
    if left.is_empty() {
        Err(ScenarioError::Truncated)
    } else {
        Err(ScenarioError::TooManyLines)
    }
}

/// Returns the statements of each line of version 3 after the first one.
fn statements_in(
    alloc: Global,
    names: &Names,
    text: &[u8],
) -> Result<Vec<Vec<Statement>>, ScenarioError>
    ensures found { IfOk result
        (λ lines. statements_in names.now text.now ≡ Ok (map (λ line. line.items) lines.items)) }
    ensures few { IfOk result (λ lines. length lines.items ≤ most_lines) }
    ensures refused { IfErr result (λ e. ¬ (e ≡ error.Memory) → statements_in names.now text.now ≡ Err e) }
{
    let mut lines = Vec::new(alloc);
    let mut left = Left::new(text);
    for number in 2..LAST_LINE + 1 {
        let line = left.next_line(number)?;
        let Some(words) = words_in(line) else {
            return Err(ScenarioError::BadLine(number));
        };
        if are_end(words.as_slice()) {
            return if left.is_empty() {
                Ok(lines)
            } else {
                Err(ScenarioError::BadLine(number + 1))
            };
        }
        let Some(said) = statements_of_line(alloc, names, words.as_slice())? else {
            return Err(ScenarioError::BadLine(number));
        };
        if lines.push(said).is_err() {
            return Err(ScenarioError::Memory);
        }
    }
    // As in versions 1 and 2.
    if left.is_empty() {
        Err(ScenarioError::Truncated)
    } else {
        Err(ScenarioError::TooManyLines)
    }
}

impl Scenario {
    ghost use Rattle.std.specs.Prelude.{◌≡◌, ◌≤◌, [], Ok, Err, Some, IfOk, IfErr, ◌⊎◌, length, map};
    ghost use Rattle.fr_core.specs.Answers.{AreUnanswered};
    ghost use Rattle.fr_names.specs.Names.{NamesOfNode};
    ghost use Rattle.fr_scenario.specs.AnyText.{IsScenarioText};
    ghost use Rattle.fr_scenario.specs.Contents.{Contents};
    ghost use Rattle.fr_scenario.specs.declared.error.ScenarioError.TheVariants as error;
    ghost use Rattle.fr_scenario.specs.Reading.{scenario_in, old_scenario_in, statements_in, first_fault};
    ghost use Rattle.fr_scenario.specs.RunContents.{with_run_contents};
    ghost use Rattle.fr_scenario.specs.ScenarioText.{most_lines};

    /// Returns the scenario that a text of version 1 or 2 spells.
    fn read_old(alloc: Global, text: &[u8]) -> Result<Scenario, ScenarioError>
        ensures { ¬ (result ≡ Err error.Memory) → result ≡ old_scenario_in text.now }
    {
        let Some((version, rest)) = begun(text) else {
            return Err(ScenarioError::BadMagic);
        };
        let gathered = body_of(alloc, version, rest)?;
        let (scripts, faults, numbers) = gathered.finish(alloc)?;
        Ok(Scenario {
            scripts,
            faults,
            numbers,
            skipped: Vec::new(alloc),
            expected: Vec::new(alloc),
        })
    }

    /// Returns the scenario of the lines with these statements in a run of so many cycles.
    fn of_lines(
        alloc: Global,
        cycles: u16,
        lines: Vec<Vec<Statement>>,
    ) -> Result<Scenario, ScenarioError>
        requires { length lines.items ≤ most_lines }
        ensures { ¬ (result ≡ Err error.Memory)
            → result ≡ with_run_contents cycles (Ok (map (λ line. line.items) lines.items)) }
    {
        if has_too_many_lines(lines.as_slice()) {
            return Err(ScenarioError::TooManyLines);
        }
        let skipped = skipped_in_run(alloc, cycles, lines.as_slice())?;
        let (faults, numbers) = faults_in_run(alloc, cycles, lines.as_slice())?;
        let expected = expected_in_run(alloc, cycles, lines.as_slice())?;
        let statements = statements_of(alloc, lines)?;
        if has_too_many_calls(cycles, statements.as_slice()) {
            return Err(ScenarioError::TooManyCalls);
        }
        let scripts = scripts_in_run(alloc, cycles, statements.as_slice())?;
        Ok(Scenario {
            scripts,
            faults,
            numbers,
            skipped,
            expected,
        })
    }

    /// Returns the scenario that the lines after the first one of a text of version 3 spell.
    fn read_new(
        alloc: Global,
        text: &[u8],
        names: &Names,
        cycles: u16,
    ) -> Result<Scenario, ScenarioError>
        ensures { ¬ (result ≡ Err error.Memory) → result ≡ with_run_contents cycles (statements_in names.now text.now) }
    {
        let lines = statements_in(alloc, names, text)?;
        Scenario::of_lines(alloc, cycles, lines)
    }

    /// Returns the scenario that a text spells.
    fn read(
        alloc: Global,
        text: &str,
        names: &Names,
        cycles: u16,
    ) -> Result<Scenario, ScenarioError>
        ensures { ¬ (result ≡ Err error.Memory) → result ≡ scenario_in names.now cycles text.now }
    {
        let bytes = text.as_bytes();
        match bytes.strip_prefix(b"frscenario 3\n".as_slice()) {
            Some(rest) => Scenario::read_new(alloc, rest, names, cycles),
            None => Scenario::read_old(alloc, bytes),
        }
    }

    /// Returns the scenario that a text spells, in a cluster with these names and a run of so many cycles
    /// (project-defined).
    ///
    /// The first line is `frscenario 1`, `frscenario 2` or `frscenario 3`. Each line ends with a line feed and has at
    /// most 1200 bytes before it, and there are at most 4096 lines. The last line is `end`.
    ///
    /// In versions 1 and 2 there stand between the first and the last line, in any order:
    ///
    /// ```text
    /// commit NODE TASK CYCLE BUFFER HEX
    /// withdraw NODE TASK CYCLE BUFFER
    /// read NODE TASK CYCLE BUFFER
    /// pop NODE TASK CYCLE
    /// babble NODE CHANNEL CYCLES PLACE HEX
    /// mute NODE CHANNEL CYCLES PLACE
    /// corrupt CHANNEL CYCLES PLACE BIT
    /// ```
    ///
    /// Version 1 has no line `withdraw`. Words are separated by one space. A number is decimal without sign and leading
    /// zeros. A node is 0 to 15, a task 0 to 7, a cycle 0 to 1023, a buffer 0 to 63, a bit 0 to 65535. CYCLES is a
    /// cycle, or `*` for every one. CHANNEL is `A` or `B`. PLACE is `s*` for every static slot, `sN` for the static
    /// slot N or `mN` for the minislot N, each 1 to 8000. HEX is `x` and two lower-case digits for each byte: an even
    /// number of bytes for a commit, at most 254, and at most 262 bytes for a babble.
    ///
    /// Version 3 has these lines and `lost NODE CYCLES`, which mutes both channels of the node in every window. It also
    /// has `expect NODE CYCLES BUFFER HEX`, with the payload that a receive buffer must hold at the end of each of
    /// these cycles, and `expect-none NODE CYCLES BUFFER`, for a buffer without a frame. Words are separated by spaces
    /// and tabs, and `#` begins a comment. A line may have no words. A call line names CYCLES. CYCLES is also `C-D`, or
    /// `C-D/STEP` for each STEPth cycle from C on up to D. C is at most D, and STEP is 1 to 1023. CHANNEL is also `AB`,
    /// for the line of A and that of B. PLACE is also `*` for every window, `sN-M` for static slots with N at most M,
    /// `m*` for every window of the dynamic segment, and `dN` for the window in which the channel opens the dynamic
    /// slot N; all numbers are 1 to 8000. NODE and BUFFER are numbers, or otherwise names of the cluster.
    ///
    /// Each word of a line of version 3 after the first may be a list of elements, with commas between them. The line
    /// then stands for one line for each choice of one element of each list, in the order in which the last list
    /// varies fastest, and for at most 64 lines. All of them have its number.
    ///
    /// The calls of a task in version 3 are ordered by cycle, and within a cycle by line. For a call `*` names each of
    /// the given number of cycles. Calls in other cycles are left out, and so are faults that begin in another cycle,
    /// and expectations that name none of these cycles.
    ///
    /// Returns the error of the first line at fault:
    /// - `BadMagic` if the first line is another or isn't whole;
    /// - `BadLine` for a line of no form, for a number out of its range, for a name that no node or buffer has alone,
    ///   for a line that is too long or stands for too many lines, and for any byte after the last line;
    /// - `TooManyLines` at the first byte of line 4097, whatever follows; and after all others so far, if a text of
    ///   version 3 has more than 4,096 lines, each with lists counted as those for which it stands, and those without
    ///   words left out;
    /// - `Truncated` if the text ends before the line feed of its last line;
    /// - `TooManyCalls`, after all these, if a text of version 3 has more than 262,144 calls in the run;
    /// - `Memory` if an allocation fails.
    pub fn for_run(
        alloc: Global,
        text: &str,
        names: &Names,
        cycles: u16,
    ) -> Result<Scenario, ScenarioError>
        // An accepted text is a spelling of the scenario, and has these scripts and fault lines.
        ensures found { IfOk result (IsScenarioText names.now cycles text.now) }
        // A spelling of a scenario is accepted as it, unless memory runs out.
        ensures only { (s : Contents) → IsScenarioText names.now cycles text.now s
            → (result ≡ Ok s) ⊎ (result ≡ Err error.Memory) }
        // A refusal is the first fault of the text,
        ensures refused { IfErr result (λ e. (e ≡ error.Memory)
            ⊎ (first_fault names.now cycles text.now ≡ Some e)) }
        // which is the text of no scenario.
        ensures hopeless { IfErr result (λ e. (e ≡ error.Memory)
            ⊎ ((s : Contents) → ¬ IsScenarioText names.now cycles text.now s)) }
    {
        Scenario::read(alloc, text, names, cycles)
    }

    /// Returns the scenario that a text spells, in a cluster without names and a run of 1,024 cycles (project-defined).
    ///
    /// Returns the errors of `for_run`.
    pub fn from_text(alloc: Global, text: &str) -> Result<Scenario, ScenarioError>
        ensures found { IfOk result (IsScenarioText [] 1024 text.now) }
        ensures only { (s : Contents) → IsScenarioText [] 1024 text.now s
            → (result ≡ Ok s) ⊎ (result ≡ Err error.Memory) }
        ensures refused { IfErr result (λ e. (e ≡ error.Memory) ⊎ (first_fault [] 1024 text.now ≡ Some e)) }
        ensures hopeless { IfErr result (λ e. (e ≡ error.Memory)
            ⊎ ((s : Contents) → ¬ IsScenarioText [] 1024 text.now s)) }
    {
        Scenario::read(alloc, text, &Names::none(alloc), 1024)
    }

    /// Returns the script of each task that has calls, by node and then task. No line has an answer. Calls that are
    /// left out don't count.
    pub fn scripts(&self) -> &[Script]
        ensures value { result.now ≡ self.now.scripts }
        ensures unanswered { AreUnanswered result.now }
    {
        self.scripts.as_slice()
    }

    /// Returns the fault lines that aren't left out, in the order of the text.
    pub fn faults(&self) -> &[FaultLine]
        ensures { result.now ≡ self.now.faults }
    {
        self.faults.as_slice()
    }

    /// Returns the number of each of these fault lines in the text, in the order of the text (project-defined). A line
    /// feed ends each line, and the first line, which names the version, is line 1. The two fault lines of a line for
    /// both channels have its number.
    pub fn fault_numbers(&self) -> &[u32]
        ensures { result.now ≡ self.now.numbers }
    {
        self.numbers.as_slice()
    }

    /// Returns the numbers of the lines of a text of version 3 that name cycles, but none that the run has
    /// (project-defined). Their calls, faults and expectations are left out.
    pub fn skipped(&self) -> &[u32]
        ensures { result.now ≡ self.now.skipped }
    {
        self.skipped.as_slice()
    }

    /// Returns the expectations that aren't left out, in the order of the text, each with the number of its line
    /// (project-defined). Texts of versions 1 and 2 have none.
    pub fn expected(&self) -> &[Expectation]
        ensures { result.now ≡ self.now.expected }
    {
        self.expected.as_slice()
    }
}
