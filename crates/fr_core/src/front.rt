//! The events of a node that one call of a world executes.
ghost use Rattle.std.specs.Prelude.{◌≡◌, ◌++◌, List};
ghost use Rattle.fr_core.specs.declared.event.Event.{Event};
ghost use Rattle.fr_core.specs.Fronts.{events_of, front_in};

use crate::event::Event;
use fr_slots::numbers::NodeId;

/// The events that stand first in a list (project-defined).
#[derive(Clone, Copy, PartialEq, Eq)]
pub enum Front {
    /// The look, the fetch and the put of the node.
    Offer(NodeId),
    /// The take and the observe of the node.
    See(NodeId),
    /// No such events.
    Other,
}

/// Returns the events of a node that stand first in the list, if one call of a world executes them (project-defined).
pub fn front_of(events: &[Event]) -> Front
    ensures value { result ≡ front_in events.now }
    ensures first { (rest : List Event) × (events.now ≡ events_of result ++ rest) }
{
    match events {
        [Event::Look(a), Event::Fetch(b), Event::Put(c), ..] if a == b && a == c => {
            Front::Offer(*a)
        }
        [Event::Take(a), Event::Observe(b), ..] if a == b => Front::See(*a),
        _ => Front::Other,
    }
}
