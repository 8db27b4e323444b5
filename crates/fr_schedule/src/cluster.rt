//! A cluster without fault.

ghost use Rattle.std.specs.Prelude.{◌≡◌, ◌≤◌, Err, None, length, option_map, slice_get, IfOk, IfSome, IfNone, ℕ};
ghost use Rattle.fr_schedule.specs.Clusters.{IsCluster, most_nodes};
ghost use Rattle.fr_schedule.specs.Descriptions.{is_guarded};
ghost use Rattle.fr_schedule.specs.SenderTable.{IsSender};
ghost use Rattle.fr_schedule.specs.declared.error.ConfigError.TheVariants as error;
ghost use Rattle.fr_schedule.specs.Files.{described, description_of, described_by, AreRead, IsTableOf};
ghost use Rattle.fr_slots.specs.Faults.{plan_fault};
ghost use Rattle.fr_slots.specs.Parameters.{IsParameters};
ghost use Rattle.fr_slots.specs.Plans.{IsPlan, Each};
ghost use Rattle.toml.specs.View.{table_view};

use crate::error::ConfigError;
use crate::file::{guard_in, nodes_in, params_in, plans_of};
use crate::senders::{place_of, senders_of};
use fr_slots::channel::{Channel, Channels};
use fr_slots::numbers::{Cycle, NodeId, SlotId};
use fr_slots::params::Params;
use fr_slots::plan::NodePlan;
use std::alloc::Global;
use std::marker::Model;
use std::mem;
use toml::Table;

/// A cluster of 1 to 16 nodes whose plans have no fault, alone and together.
#[derive(Drop)]
pub struct Cluster {
    params: Params,
    guard: Option<Channels>,
    plans: Vec<NodePlan>,
    /// The number of the sending node, for each slot, channel and cycle.
    senders: Vec<u8>,
}

impl Model for Cluster {
    ghost use Rattle.fr_schedule.specs.Descriptions.{Description};

    ghost Value = { Description };

    ghost use Rattle.fr_schedule.specs.ClusterFields.{description_in, IsLawful};

    ghost view = { description_in };

    ghost invariant = { IsLawful };
}

/// Returns the table of a cluster file (project-defined).
///
/// Fails with `Toml` for a text that isn't TOML, and with `Memory` if an allocation fails.
pub fn table_of(alloc: Global, text: &str) -> Result<Table, ConfigError>
    ensures { IsTableOf text.now result }
{
    match toml::table_from_str(alloc, text) {
        Ok(table) => Ok(table),
        Err(error) if error.is_memory() => Err(ConfigError::Memory),
        Err(_) => Err(ConfigError::Toml),
    }
}

/// Returns the cluster of a file's table.
fn cluster_of(alloc: Global, root: &Table) -> Result<Cluster, ConfigError>
    ensures told { ¬ (result ≡ Err error.Memory) → result ≡ description_of (table_view root.now) }
    ensures lawful { IfOk result IsCluster }
{
    let params = params_in(alloc, root)?;
    let guard = guard_in(root)?;
    let Some(values) = nodes_in(root) else {
        return Err(ConfigError::TooManyNodes);
    };
    let plans = plans_of(alloc, &params, values)?;
    Cluster::from_plans(alloc, params, guard, plans)
}

impl Cluster {
    /// Returns the cluster that a cluster file describes (project-defined).
    ///
    /// Fails, in this order:
    ///
    /// - `Toml` for a text that isn't TOML,
    /// - `Params` if the table `params` gives no parameters; if it is absent, its first key is missing,
    /// - `BadGuard`, then `TooManyNodes`,
    /// - node by node, in the order of the file, `BadNode`, then `BadBuffer` for its first buffer at fault,
    /// - `NotOwned`, `DynamicBoth`, `Overlap` and `TooLong`. Each kind is looked for in the whole file before the next.
    ///   Of a kind, the first in the order of its numbers is named, channel A before B.
    ///
    /// Keys without a meaning are ignored. A failed allocation gives `Memory`. The clauses don't exclude `Memory` for
    /// other causes while the text is parsed, since `toml` states nothing of a text for which memory ran out.
    pub fn from_text(alloc: Global, text: &str) -> Result<Cluster, ConfigError>
        ensures told { ¬ (result ≡ Err error.Memory) → result ≡ described text.now }
        ensures lawful { IfOk result IsCluster }
    {
        let root = table_of(alloc, text)?;
        cluster_of(alloc, &root)
    }

    /// Returns the same cluster, for a program that reads one cluster file and ends. The parsed table isn't freed,
    /// since freeing it takes a tenth of the time of reading it.
    pub fn from_text_leaking(alloc: Global, text: &str) -> Result<Cluster, ConfigError>
        ensures told { ¬ (result ≡ Err error.Memory) → result ≡ described text.now }
        ensures lawful { IfOk result IsCluster }
    {
        let root = table_of(alloc, text)?;
        let cluster = cluster_of(alloc, &root);
        mem::forget(root);
        cluster
    }

    /// Returns the cluster that the table of a cluster file describes, for a caller that reads more of the table
    /// (project-defined). Fails as `from_text` does once the text is parsed.
    pub fn from_table(alloc: Global, root: &Table) -> Result<Cluster, ConfigError>
        ensures told { ¬ (result ≡ Err error.Memory) → result ≡ description_of (table_view root.now) }
        ensures lawful { IfOk result IsCluster }
    {
        cluster_of(alloc, root)
    }

    /// Returns the cluster of these parameters, guarded channels and plans, for a caller that reads the nodes of a
    /// cluster file by itself (project-defined). The plans are those that `plan_of` returned for the nodes, in their
    /// order.
    ///
    /// Fails with `NotOwned`, `DynamicBoth`, `Overlap` or `TooLong`, as `from_text` does once all nodes are read, and
    /// with `Memory` if an allocation fails.
    pub fn from_plans(
        alloc: Global,
        params: Params,
        guard: Option<Channels>,
        plans: Vec<NodePlan>,
    ) -> Result<Cluster, ConfigError>
        requires params_are { IsParameters params }
        requires some { 1 ≤ length plans.items }
        requires few { length plans.items ≤ most_nodes }
        requires lawful { Each IsPlan plans.items }
        requires read { AreRead params plans.items }
        ensures told { ¬ (result ≡ Err error.Memory)
            → result ≡ described_by params guard plans.items }
        ensures lawful { IfOk result IsCluster }
    {
        let senders = senders_of(alloc, &params, plans.as_slice())?;
        Ok(Cluster {
            params,
            guard,
            plans,
            senders,
        })
    }

    /// Returns the node that sends in the slot on the channel in the cycle, or `None` if there is none. In a static
    /// slot it is the owner in that cycle, in a dynamic slot the node with a transmit buffer that admits the slot.
    /// Chapter 5; the division of a static slot by cycles is project-defined.
    pub fn sender(&self, cycle: Cycle, slot: SlotId, channel: Channel) -> Option<NodeId>
        ensures sender { IfSome result (λ node. IsSender self.now cycle slot channel node) }
        ensures nobody { IfNone result ((node : ℕ) → ¬ IsSender self.now cycle slot channel node) }
        ensures lawful { IsCluster self.now }
    {
        NodeId::new(self.senders[place_of(slot, channel, cycle)])
    }

    /// Returns the parameters of the cluster.
    pub fn params(&self) -> &Params
        ensures value { result.now ≡ self.now.params }
        ensures lawful { IsCluster self.now }
    {
        &self.params
    }

    /// Returns the plans of all nodes, 1 to 16, in the order of their numbers.
    pub fn plans(&self) -> &[NodePlan]
        ensures value { result.now ≡ self.now.plans }
        ensures lawful { IsCluster self.now }
    {
        self.plans.as_slice()
    }

    /// Returns the plan of a node, or `None` if the cluster doesn't have the node.
    pub fn node(&self, node: NodeId) -> Option<&NodePlan>
        ensures value { option_map (λ plan. plan.now) result ≡ slice_get self.now.plans node }
        ensures lawful { IsCluster self.now }
        ensures faultless { IfSome result (λ plan. plan_fault self.now.params plan.now ≡ None) }
    {
        self.plans.get(usize::from(node.number()))
    }

    /// Returns the number of nodes, 1 to 16.
    pub fn nodes(&self) -> u8
        ensures value { result ≡ length self.now.plans }
        ensures lawful { IsCluster self.now }
    {
        self.plans.len() as u8
    }

    /// Returns whether the channel has bus guardians (project-defined).
    pub fn guarded(&self, channel: Channel) -> bool
        ensures value { result ≡ is_guarded self.now.guard channel }
        ensures lawful { IsCluster self.now }
    {
        match self.guard {
            None => false,
            Some(channels) => channels.includes(channel),
        }
    }
}
