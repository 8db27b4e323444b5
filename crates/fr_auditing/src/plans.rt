//! The plan of a text. One of version 4 may give any room that the numbers of entries allow.

ghost use Rattle.std.specs.Prelude.{◌≡◌, ◌≤◌};
ghost use Rattle.fr_auditing.specs.LongReading.{long_limits_in, long_node_in};
ghost use Rattle.fr_text.specs.Spaces.{words_of};
ghost use Rattle.fr_auditing.specs.Tracking.{taken};
ghost use Rattle.fr_lines.specs.Reading.{node_in};
ghost use Rattle.fr_trace.specs.Stream.{line_count};

use fr_interface::errors::InterfaceError;
use fr_interface::interface::LiveInterface;
use fr_lines::nodes::node_of;
use fr_lines::plan_lines::{PlanLine, plan_line_of};
use fr_lines::versions::Version;
use fr_slots::params::Params;
use fr_slots::plan::{NodePlan, PlanError};
use fr_text::numbers::number_of;
use fr_text::words::Words;
use fr_trace::error::TraceError;
use std::alloc::Global;
use std::marker::Model;

/// The greatest room for entries of the host in a text of version 4 (project-defined).
pub const LAST_HOST_LIMIT: u32 = 1073741824;

/// The greatest room for entries of the controller in a text of version 4 (project-defined).
pub const LAST_SLOT_LIMIT: u32 = 3221225469;

/// A plan with room for so many entries in place of its own.
#[derive(Drop)]
pub(crate) struct LongPlan {
    plan: NodePlan,
    host_entries: u32,
    slot_entries: u32,
}

impl Model for LongPlan {
    ghost use Rattle.std.specs.Prelude.{◌≤◌};
    ghost use Rattle.fr_slots.specs.Numbers.{last_host_limit, last_slot_limit};
    ghost use Rattle.fr_slots.specs.Plans.{Plan, with_limits};

    ghost Value = { Plan };

    ghost view = { λ l. with_limits l.plan l.host_entries l.slot_entries };

    ghost invariant = { λ l. (1 ≤ l.host_entries) × (l.host_entries ≤ last_host_limit) × (2 ≤ l.slot_entries)
        × (l.slot_entries ≤ last_slot_limit) };
}

/// Returns the number of lines that a plan has after its first.
pub(crate) fn line_count(plan: &NodePlan) -> u8
    ensures value { result ≡ line_count plan.now }
    ensures few { result ≤ 129 }
{
    let queue = u8::from(plan.queue().is_some());
    plan.owned().len() as u8 + plan.buffers().len() as u8 + queue
}

/// Returns the plan with its own room.
fn with_own_room(plan: NodePlan) -> LongPlan
    ensures { result ≡ plan }
{
    let host_entries = u32::from(plan.host_entries());
    let slot_entries = plan.slot_entries();
    LongPlan {
        plan,
        host_entries,
        slot_entries,
    }
}

/// Returns the refusal of the line of this number, unless a plan has taken it.
fn taken(added: Result<(), PlanError>, number: u64) -> Result<(), TraceError>
    ensures { result ≡ taken added number }
{
    match added {
        Ok(()) => Ok(()),
        Err(_) => Err(TraceError::BadLine(number)),
    }
}

/// Returns the plan of the five numbers that the words spell.
#[tactic(auto, unfolding(crate::specs::LongReading::long_limits_in))]
fn long_limits_of(words: &mut Words<'_>) -> Option<LongPlan>
    ensures { result ≡ long_limits_in words.old }
{
    let (tasks, latest_a, latest_b, host_entries, slot_entries) = words.five()?;
    let tasks = number_of(tasks, 9)?;
    let latest_a = number_of(latest_a, 8001)?;
    let latest_b = number_of(latest_b, 8001)?;
    let host_entries = number_of(host_entries, 1073741825)?;
    let slot_entries = number_of(slot_entries, 3221225470)?;
    let latest = [latest_a as u16, latest_b as u16];
    let Ok(plan) = NodePlan::new(tasks as u8, latest, 1, 2) else {
        return None;
    };
    if host_entries < 1 || slot_entries < 2 {
        return None;
    }
    Some(LongPlan {
        plan,
        host_entries: host_entries as u32,
        slot_entries: slot_entries as u32,
    })
}

/// Returns the plan that a line `node` of version 4 begins, without ownership lines, buffers and a receive FIFO.
///
/// `None` for a line of another form, and for a number out of its range. The ranges are those of version 3, but there
/// is room for 1 to 1073741824 host entries and for 2 to 3221225469 slot entries.
#[tactic(auto, unfolding(crate::specs::LongReading::long_node_in))]
pub(crate) fn long_node_of(line: &[u8]) -> Option<LongPlan>
    ensures { result ≡ long_node_in (words_of line.now) }
{
    let mut words = Words::new(line);
    match words.next_word()? {
        b"node" => long_limits_of(&mut words),
        _ => None,
    }
}

/// Returns the plan that a line `node` of versions 1 to 3 begins, as `node_of` does.
pub(crate) fn short_node_of(line: &[u8]) -> Option<LongPlan>
    ensures { result ≡ node_in (words_of line.now) }
{
    match node_of(line) {
        Some(plan) => Some(with_own_room(plan)),
        None => None,
    }
}

impl LongPlan {
    ghost use Rattle.std.specs.Prelude.{◌≡◌, ◌≤◌, ◌+◌, [], is_some, Some, None, IfOk};
    ghost use Rattle.fr_slots.specs.Faults.{plan_fault};
    ghost use Rattle.fr_text.specs.Spaces.{words_of};
    ghost use Rattle.fr_trace.specs.Feeds.{GivesPhase};
    ghost use Rattle.fr_trace.specs.Stream.{line_count, has_owned_alone, lines, after_plan_line};
    ghost use Rattle.fr_lines.specs.Reading.{plan_line_in};

    /// Returns the number of lines that the plan has after its first.
    pub(crate) fn line_count(&self) -> u8
        ensures value { result ≡ line_count self.now }
        ensures few { result ≤ 129 }
    {
        line_count(&self.plan)
    }

    /// Returns whether the plan has a fault for these parameters.
    pub(crate) fn is_faulty(&self, params: &Params) -> bool
        ensures { result ≡ is_some (plan_fault params.now self.now) }
    {
        self.plan.fault(params).is_some()
    }

    /// Returns its interface without entries. Fails if an allocation does.
    pub(crate) fn interface(
        &self,
        alloc: Global,
        params: &Params,
    ) -> Result<LiveInterface, InterfaceError>
        requires { plan_fault params.now self.now ≡ None }
        ensures { IfOk result (λ i. i ≡ record { params = params.now; plan = self.now; entries = [] }) }
    {
        LiveInterface::new(
            alloc,
            params,
            &self.plan,
            self.host_entries,
            self.slot_entries,
        )
    }

    /// Returns whether the plan has neither a buffer nor a receive FIFO.
    fn has_owned_alone(&self) -> bool
        ensures { result ≡ has_owned_alone self.now }
    {
        self.plan.buffers().is_empty() && self.plan.queue().is_none()
    }

    /// Adds the line of this number to the plan, if it may stand there and has room.
    fn add(
        &mut self,
        version: Version,
        params: &Params,
        line: PlanLine,
        number: u64,
    ) -> Result<(), TraceError>
        requires { number ≡ line_count self.old + 4 }
        ensures { GivesPhase (λ done. lines version params.now self.new) result
            (after_plan_line version params.now self.old (Some line)) }
    {
        match line {
            PlanLine::Own(own) if self.has_owned_alone() => taken(self.plan.add_own(own), number),
            PlanLine::Buffer(buffer) if self.plan.queue().is_none() => {
                taken(self.plan.add_buffer(buffer), number)
            }
            PlanLine::Queue(queue) => taken(self.plan.set_queue(queue), number),
            _ => Err(TraceError::BadLine(number)),
        }
    }

    /// Reads a line of the plan after its first, which isn't `begin`.
    pub(crate) fn take(
        &mut self,
        version: Version,
        params: &Params,
        line: &[u8],
    ) -> Result<(), TraceError>
        ensures { GivesPhase (λ done. lines version params.now self.new) result
            (after_plan_line version params.now self.old (plan_line_in version (words_of line.now))) }
    {
        let number = u64::from(self.line_count()) + 4;
        match plan_line_of(version, line) {
            Some(told) => self.add(version, params, told, number),
            None => Err(TraceError::BadLine(number)),
        }
    }
}
