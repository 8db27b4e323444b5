//! Points of calls at which a thread may be held.

use fr_slots::numbers::{NodeId, TaskId};

/// The caller (project-defined).
#[derive(Clone, Copy, PartialEq, Eq)]
pub enum Actor {
    /// This task of the node.
    Task(NodeId, TaskId),
    /// The node's controller.
    Controller(NodeId),
    /// The thread that moves the bus on.
    Bus,
}

/// The state of a call (project-defined).
#[derive(Clone, Copy, PartialEq, Eq)]
pub enum Side {
    /// It hasn't asked for its lock.
    Before,
    /// It holds its lock, and hasn't begun its work.
    Inside,
    /// It has released its lock, and hasn't returned.
    After,
}

/// A point that each call passes (project-defined).
#[derive(Clone, Copy, PartialEq, Eq)]
pub struct Point {
    /// The caller.
    pub actor: Actor,
    /// The state of the call.
    pub side: Side,
}

/// A gate that calls pass (project-defined).
///
/// A test can hold one call there until another has come far enough.
pub trait Gate {
    /// Passes the point.
    ///
    /// It is called Before, Inside and After each call of a desk, and Before and After each seal of a wire. It may
    /// wait.
    fn pass(&self, point: Point);
}

/// A gate that never waits (project-defined).
#[derive(Clone, Copy)]
pub struct OpenGate;

impl Gate for OpenGate {
    fn pass(&self, _point: Point) {}
}

/// Passes the gate.
pub(crate) fn pass<G: Gate>(gate: &G, actor: Actor, side: Side) {
    gate.pass(Point { actor, side });
}
