//! Marks of the windows that fault lines name, by which a line is compared with all others in constant time.

ghost use Rattle.std.specs.HashSet.{contains};
ghost use Rattle.std.specs.Prelude.{◌≡◌, ◌||◌, OnOk};
ghost use Rattle.fr_session.specs.Marks.{are_plain_cycles, cycles_of, finds, in_static, is_plain, is_plain_place};
ghost use Rattle.fr_session.specs.Marks.{mark_eq, mark_of, places_of, plain_mark_of, target_of, AddsMark, AddsMarks};

use fr_bus::fault::Fault;
use fr_runs::cycles::RunCycles;
use fr_runs::fault_line::{FaultLine, FaultPlace};
use fr_slots::channel::Channel;
use std::alloc::{AllocFailed, Global};
use std::collections::HashSet;
use std::hash::{BuildHasherDefault, FoldHasher};

/// A kind of fault with the number of its node, and its channel. A window has at most one fault of each.
#[derive(Clone, Copy, PartialEq, Eq, Hash)]
pub(crate) enum Target {
    /// The node babbles on channel B, or on A.
    Babble { node: u8, on_b: bool },
    /// The offer of the node on channel B, or on A, is lost.
    Mute { node: u8, on_b: bool },
    /// A bit is flipped on channel B, or on A.
    Corrupt { on_b: bool },
}

/// The cycles of a mark, or its slots or minislots.
#[derive(Clone, Copy, PartialEq, Eq, Hash)]
pub(crate) enum Reach {
    /// All of them, named as all.
    Every,
    /// The one of this number.
    Only(u16),
    /// Each one that a line names.
    Any,
}

/// A key under which plain lines are looked up.
///
/// A line is plain if it names one cycle or all, and one static slot, one minislot, or all of a segment. Each plain
/// line leaves four marks: its own, and those with `Any` in place of its cycles, of its slots or minislots, and of
/// both.
#[derive(Clone, Copy, PartialEq, Eq, Hash, Drop)]
pub(crate) struct Mark {
    pub target: Target,
    pub in_static: bool,
    pub cycles: Reach,
    pub places: Reach,
}

/// The marks of some fault lines.
pub(crate) type Marks = HashSet<Mark, BuildHasherDefault<FoldHasher>, Global>;

/// Returns the kind of the fault with its node and channel.
fn target_of(fault: &Fault) -> Target
    ensures { result ≡ target_of fault.now }
{
    match fault {
        Fault::Babble { node, channel, .. } => Target::Babble {
            node: node.number(),
            on_b: *channel == Channel::B,
        },
        Fault::Mute { node, channel } => Target::Mute {
            node: node.number(),
            on_b: *channel == Channel::B,
        },
        Fault::Corrupt { channel, .. } => Target::Corrupt {
            on_b: *channel == Channel::B,
        },
    }
}

/// Returns whether a plain line may name these cycles.
fn are_plain_cycles(cycles: RunCycles) -> bool
    ensures { result ≡ are_plain_cycles cycles }
{
    match cycles {
        RunCycles::Every | RunCycles::Only(_) => true,
        RunCycles::Span { .. } => false,
    }
}

/// Returns whether a plain line may name this place.
fn is_plain_place(place: FaultPlace) -> bool
    ensures { result ≡ is_plain_place place }
{
    match place {
        FaultPlace::EverySlot
        | FaultPlace::Slot(_)
        | FaultPlace::EveryMinislot
        | FaultPlace::Minislot(_) => true,
        FaultPlace::EveryWindow | FaultPlace::Slots { .. } | FaultPlace::Dynamic(_) => false,
    }
}

/// Returns whether the line is plain.
fn is_plain(line: &FaultLine) -> bool
    ensures { result ≡ is_plain line.now }
{
    are_plain_cycles(line.cycles) && is_plain_place(line.place)
}

/// Returns the cycles that a plain line names.
fn cycles_of(cycles: RunCycles) -> Reach
    ensures { result ≡ cycles_of cycles }
{
    match cycles {
        RunCycles::Every => Reach::Every,
        RunCycles::Only(cycle) => Reach::Only(cycle),
        RunCycles::Span { .. } => Reach::Any,
    }
}

/// Returns whether a plain line names static slots.
fn in_static(place: FaultPlace) -> bool
    ensures { result ≡ in_static place }
{
    match place {
        FaultPlace::EverySlot | FaultPlace::Slot(_) => true,
        _ => false,
    }
}

/// Returns the slots or minislots that a plain line names.
fn places_of(place: FaultPlace) -> Reach
    ensures { result ≡ places_of place }
{
    match place {
        FaultPlace::EverySlot | FaultPlace::EveryMinislot => Reach::Every,
        FaultPlace::Slot(number) | FaultPlace::Minislot(number) => Reach::Only(number),
        _ => Reach::Any,
    }
}

/// Returns the own mark of a plain line.
fn mark_of(line: &FaultLine) -> Mark
    ensures { result ≡ mark_of line.now }
{
    Mark {
        target: target_of(&line.fault),
        in_static: in_static(line.place),
        cycles: cycles_of(line.cycles),
        places: places_of(line.place),
    }
}

/// Returns the line's own mark, if the line is plain.
pub(crate) fn plain_mark_of(line: &FaultLine) -> Option<Mark>
    ensures { result ≡ plain_mark_of line.now }
{
    if is_plain(line) {
        Some(mark_of(line))
    } else {
        None
    }
}

impl Reach {
    ghost use Rattle.std.specs.Prelude.{◌≡◌};
    ghost use Rattle.fr_session.specs.Marks.{first_by, other_by};

    /// Returns the first of two keys.
    ///
    /// Each reach that has something in common with this one is found under one of them.
    fn first(self) -> Reach
        ensures { result ≡ first_by self }
    {
        match self {
            Reach::Every | Reach::Any => Reach::Any,
            Reach::Only(number) => Reach::Only(number),
        }
    }

    /// Returns the other of the two keys.
    fn other(self) -> Reach
        ensures { result ≡ other_by self }
    {
        match self {
            Reach::Every | Reach::Any => Reach::Any,
            Reach::Only(_) => Reach::Every,
        }
    }
}

impl Mark {
    ghost use Rattle.std.specs.Prelude.{◌≡◌};
    ghost use Rattle.fr_session.specs.Marks.{at};

    /// Returns the mark with other cycles and other slots or minislots.
    fn at(self, cycles: Reach, places: Reach) -> Mark
        ensures { result ≡ at self cycles places }
    {
        Mark {
            target: self.target,
            in_static: self.in_static,
            cycles,
            places,
        }
    }
}

/// Returns whether the mark is there.
fn has(marks: &Marks, mark: Mark) -> bool
    ensures { result ≡ contains mark_eq marks.now mark }
{
    marks.contains(&mark)
}

/// Adds a mark.
fn add(marks: &mut Marks, mark: Mark) -> Result<(), AllocFailed<Mark>>
    ensures { OnOk result (AddsMark marks.old mark marks.new) }
{
    marks.insert(mark)?;
    Ok(())
}

/// Returns whether a plain line of this mark meets one of the plain lines that left the marks.
pub(crate) fn is_met(marks: &Marks, own: Mark) -> bool
    ensures { result ≡ finds (contains mark_eq marks.now) own }
{
    let (cycles, places) = (own.cycles, own.places);
    has(marks, own.at(cycles.first(), places.first()))
        || has(marks, own.at(cycles.first(), places.other()))
        || has(marks, own.at(cycles.other(), places.first()))
        || has(marks, own.at(cycles.other(), places.other()))
}

/// Adds the four marks of a plain line of this mark. If an allocation fails, some of them may be present.
pub(crate) fn add_all(marks: &mut Marks, own: Mark) -> Result<(), AllocFailed<Mark>>
    ensures { OnOk result (AddsMarks marks.old own marks.new) }
{
    add(marks, own)?;
    add(marks, own.at(Reach::Any, own.places))?;
    add(marks, own.at(own.cycles, Reach::Any))?;
    add(marks, own.at(Reach::Any, Reach::Any))?;
    Ok(())
}
