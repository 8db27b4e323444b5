//! The nodes of a world.
ghost use Rattle.std.specs.Prelude.{◌≡◌, option_map, slice_get};

use fr_core::world::World;
use fr_interface::interface::Interface;
use fr_slots::numbers::NodeId;

/// Returns the interface of the node, if the cluster has it (project-defined).
pub fn interface_of(world: &World, node: NodeId) -> Option<&Interface>
    ensures { option_map (λ interface. interface.now) result ≡ slice_get world.now.interfaces node }
{
    world.interfaces().get(usize::from(node.number()))
}
