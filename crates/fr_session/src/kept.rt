//! Fault lines that are kept one after another.

ghost use Rattle.std.specs.Prelude.{◌≡◌, ◌++◌, ◌∷◌, [], List};
ghost use Rattle.std.specs.Option.{ForSome};
ghost use Rattle.fr_runs.specs.declared.fault_line.FaultLine.{FaultLine as Line};
ghost use Rattle.fr_session.specs.Marks.{plain_mark_of, AreMarksOf};

use crate::marks::{Mark, Marks, add_all, is_met, plain_mark_of};
use fr_runs::fault_line::FaultLine;
use fr_runs::faults::suits_after;
use fr_schedule::cluster::Cluster;
use std::alloc::{AllocError, Global};
use std::collections::HashSet;
use std::marker::Model;
use std::slice;

/// Fault lines in their order, and marks of the windows that they name.
///
/// As long as all lines are plain, each further plain line is checked in constant time. In contracts, this is the list
/// of lines.
#[derive(Drop)]
pub struct KeptLines {
    alloc: Global,
    lines: Vec<FaultLine>,
    /// The marks, or none once a line isn't plain or an allocation for them has failed. Each line is then compared with
    /// all others.
    marks: Option<Marks>,
    ghost marked: { ForSome marks (AreMarksOf lines.items) },
}

impl Model for KeptLines {
    ghost use Rattle.std.specs.Prelude.{List};
    ghost use Rattle.fr_runs.specs.declared.fault_line.FaultLine.{FaultLine};

    ghost Value = { List FaultLine };

    ghost view = { λ k. k.lines.items };
}

/// Returns the marks with those of one more line, or none if the line isn't plain or an allocation fails.
///
/// The own mark of the line is given, if the line is plain.
fn marks_with(marks: Option<Marks>, own: Option<Mark>) -> Option<Marks>
    ensures { (lines : List Line) (line : Line) → own ≡ plain_mark_of line → ForSome marks (AreMarksOf lines)
        → ForSome result (AreMarksOf (lines ++ line ∷ [])) }
{
    let mut marks = marks?;
    let own = own?;
    match add_all(&mut marks, own) {
        Ok(()) => Some(marks),
        Err(_) => None,
    }
}

impl KeptLines {
    ghost use Rattle.std.specs.Prelude.{◌≡◌, ◌↔◌, ◌++◌, ◌∷◌, [], length, IsTrue, OnErr, OnOk};
    ghost use Rattle.fr_runs.specs.Suiting.{IsFaultAfter};
    ghost use Rattle.fr_session.specs.Keeping.{AreFaultsAfter};

    /// Returns an empty list of lines.
    pub fn new(alloc: Global) -> KeptLines
        ensures { result ≡ [] }
    {
        KeptLines {
            alloc,
            lines: Vec::new(alloc),
            marks: Some(HashSet::new(alloc)),
        }
    }

    /// Returns the lines in their order.
    pub fn as_slice(&self) -> &[FaultLine]
        ensures { result.now ≡ self.now }
    {
        self.lines.as_slice()
    }

    /// Returns the number of lines.
    pub fn len(&self) -> usize
        ensures { result ≡ length self.now }
    {
        self.lines.len()
    }

    /// Forgets all lines.
    pub fn clear(&mut self)
        ensures { self.new ≡ [] }
    {
        let KeptLines {
            alloc,
            lines,
            marks,
            ..
        } = self;
        lines.clear();
        match marks {
            Some(marks) => marks.clear(),
            None => *marks = Some(HashSet::new(*alloc)),
        }
    }

    /// Returns whether a run of the cluster with these lines can have this line too.
    pub fn suit(&self, cluster: &Cluster, cycles: u16, line: &FaultLine) -> bool
        ensures { IsTrue result ↔ IsFaultAfter cluster.now cycles self.now line.now }
    {
        match (&self.marks, plain_mark_of(line)) {
            (Some(marks), Some(own)) => suits_after(cluster, cycles, &[], line)
                && !is_met(marks, own),
            _ => suits_after(cluster, cycles, self.lines.as_slice(), line),
        }
    }

    /// Returns whether a run of the cluster with these lines can have both of these too, the first before the second.
    pub fn suit_both(&self, cluster: &Cluster, cycles: u16, a: &FaultLine, b: &FaultLine) -> bool
        ensures { IsTrue result ↔ AreFaultsAfter cluster.now cycles self.now a.now b.now }
    {
        self.suit(cluster, cycles, a)
            && self.suit(cluster, cycles, b)
            && suits_after(cluster, cycles, slice::from_ref(a), b)
    }

    /// Appends a line. If its allocation fails, the lines stay as they are.
    pub fn push(&mut self, line: FaultLine) -> Result<(), AllocError>
        ensures kept { OnOk result (self.new ≡ self.old ++ line ∷ []) }
        ensures same { OnErr result (self.new ≡ self.old) }
    {
        let own = plain_mark_of(&line);
        let KeptLines { lines, marks, .. } = self;
        lines.push(line)?;
        *marks = marks_with(marks.take(), own);
        Ok(())
    }

    /// Appends two lines. If an allocation for them fails, the lines stay as they are.
    pub fn push_both(&mut self, a: FaultLine, b: FaultLine) -> Result<(), AllocError>
        ensures kept { OnOk result (self.new ≡ self.old ++ a ∷ b ∷ []) }
        ensures same { OnErr result (self.new ≡ self.old) }
    {
        let (first, second) = (plain_mark_of(&a), plain_mark_of(&b));
        let KeptLines { lines, marks, .. } = self;
        lines.push(a)?;
        if lines.push(b).is_err() {
            lines.pop();
            return Err(AllocError);
        }
        *marks = marks_with(marks_with(marks.take(), first), second);
        Ok(())
    }
}
