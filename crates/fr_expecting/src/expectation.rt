//! What a receive buffer must hold at the ends of cycles.

ghost use Rattle.std.specs.Prelude.{◌≡◌};

use fr_frame::payload::Payload;
use fr_runs::cycles::RunCycles;
use fr_slots::numbers::NodeId;

/// The content that a receive buffer must have at the end of each of some cycles (project-defined).
#[derive(Drop)]
pub struct Expectation {
    /// The number of its line in the text of the scenario, from 1.
    pub line: u32,
    /// The node.
    pub node: NodeId,
    /// The cycles of the run.
    pub cycles: RunCycles,
    /// The number of the receive buffer, from 0.
    pub buffer: u8,
    /// The payload that the buffer must hold, or none if it must be empty.
    pub payload: Option<Payload>,
}

impl Expectation {
    /// Returns a copy of the expectation.
    pub fn duplicate(&self) -> Expectation
        ensures { result ≡ self.now }
    {
        Expectation {
            line: self.line,
            node: self.node,
            cycles: self.cycles,
            buffer: self.buffer,
            payload: copy_of(&self.payload),
        }
    }
}

/// Returns a copy of the payload, if there is one.
pub(crate) fn copy_of(payload: &Option<Payload>) -> Option<Payload>
    ensures { result ≡ payload.now }
{
    match payload {
        Some(payload) => Some(payload.duplicate()),
        None => None,
    }
}
