//! The parts of a world that are shown.
ghost use Rattle.std.specs.Prelude.{◌≡◌, ◌≤◌, length};

use fr_core::world::World;
use fr_interface::interface::Interface;
use fr_slots::params::Params;

/// Returns the interfaces, in the order of the nodes. There are at most 16.
#[tactic(auto, using(crate::proofs::PartLemmas::few_nodes))]
pub(crate) fn interfaces_of(world: &World) -> &[Interface]
    ensures value { result.now ≡ world.now.interfaces }
    ensures few { length result.now ≤ 16 }
{
    world.interfaces()
}

/// Returns the parameters of the cluster.
#[tactic(auto, using(crate::proofs::PartLemmas::some_nodes))]
pub(crate) fn params_of(world: &World) -> &Params
    ensures { result.now ≡ world.now.bus.cluster.params }
{
    let interfaces = world.interfaces();
    interfaces[0].params()
}
