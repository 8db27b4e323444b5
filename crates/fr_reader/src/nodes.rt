//! The nodes of a cluster file, one after another.

ghost use Rattle.std.specs.Prelude.{◌≡◌, ◌<◌, ◌≤◌, Ok, Err, length, IfSome, IfOk};
ghost use Rattle.fr_reader.specs.UsualText.{IsNode, AreUpTo};
ghost use Rattle.fr_schedule.specs.Clusters.{IsCluster};
ghost use Rattle.fr_schedule.specs.declared.error.ConfigError.TheVariants as error;
ghost use Rattle.fr_schedule.specs.Files.{described};
ghost use Rattle.fr_slots.specs.Plans.{IsPlan, Each};
ghost use Rattle.toml_parser.specs.Lexical as lexical;

use crate::head::{head_in, params_of};
use crate::section::{after_array_header, pairs_in};
use fr_params::table::value_under;
use fr_schedule::cluster::Cluster;
use fr_schedule::error::ConfigError;
use fr_schedule::file::{guard_in, plan_of};
use fr_slots::numbers::{NODES, NodeId};
use fr_slots::params::Params;
use fr_slots::plan::NodePlan;
use std::alloc::Global;
use toml::Value;
use toml_parser::text::{first, skip_blank};

/// The greatest number of nodes of a cluster (project-defined).
const MOST_NODES: usize = NODES as usize;

/// The first byte of a byte order mark in UTF-8.
const MARK: u8 = 0xEF;

/// Returns the plan of the node whose header is next, and the text after its pairs.
fn next_plan<'a>(
    alloc: Global,
    params: &Params,
    node: NodeId,
    text: &'a str,
) -> Option<(NodePlan, &'a str)>
    ensures read { IfSome result (λ p. IsNode params.now node text.now p.0 p.1.now) }
    ensures lawful { IfSome result (λ p. IsPlan p.0) }
    ensures shorter { IfSome result (λ p. length p.1.now < length text.now) }
{
    let after = after_array_header(alloc, text, "node")?;
    let (table, rest) = pairs_in(alloc, after)?;
    let plan = plan_of(params, node, &Value::Table(table)).ok()?;
    Some((plan, rest))
}

/// Returns the plans of the nodes up to the end of the text, and the blanks and comments after them.
///
/// Returns `None` for more than 16 nodes.
fn plans_in<'a>(alloc: Global, params: &Params, text: &'a str) -> Option<(Vec<NodePlan>, &'a str)>
    ensures read { IfSome result (λ p. AreUpTo params.now text.now p.0.items p.1.now) }
    ensures ends { IfSome result (λ p. length (lexical.skip_blank p.1.now) ≡ 0) }
    ensures some { IfSome result (λ p. 1 ≤ length p.0.items) }
    ensures few { IfSome result (λ p. length p.0.items ≤ 16) }
    ensures lawful { IfSome result (λ p. Each IsPlan p.0.items) }
{
    let mut plans = Vec::new(alloc);
    let mut rest = text;
    for number in 0..MOST_NODES {
        let (plan, after) = next_plan(alloc, params, NodeId::from_number(number as u8), rest)?;
        if plans.push(plan).is_err() {
            return None;
        }
        rest = after;
        if skip_blank(rest, true).is_empty() {
            return Some((plans, rest));
        }
    }
    None
}

/// Returns the cluster that the text describes, if it has the usual form and no fault.
///
/// In the usual form pairs come first, then tables, then the nodes. Keys and headers have no dots, and no value is deeper
/// than an array of inline tables.
fn usual_cluster(alloc: Global, text: &str) -> Option<Cluster>
    ensures told { IfSome result (λ cluster. described text.now ≡ Ok cluster) }
    ensures lawful { IfSome result IsCluster }
{
    if first(text) == MARK {
        return None;
    }
    let (root, rest) = head_in(alloc, text)?;
    if value_under(&root, "node").is_some() {
        return None;
    }
    let params = params_of(&root)?;
    let guard = guard_in(&root).ok()?;
    let (plans, _) = plans_in(alloc, &params, rest)?;
    match Cluster::from_plans(alloc, params, guard, plans) {
        Ok(cluster) => Some(cluster),
        Err(_) => None,
    }
}

/// Returns the cluster that a cluster file describes (project-defined).
///
/// The results are those of `Cluster::from_text`. In its usual form a file is read node by node, and each node's table is
/// freed before the next is read. So a large file takes less time and memory. A file of another form, with a fault, or
/// for which an allocation failed, is read as a whole, and its table isn't freed.
pub fn cluster_from_text(alloc: Global, text: &str) -> Result<Cluster, ConfigError>
    ensures told { ¬ (result ≡ Err error.Memory) → result ≡ described text.now }
    ensures lawful { IfOk result IsCluster }
{
    match usual_cluster(alloc, text) {
        Some(cluster) => Ok(cluster),
        None => Cluster::from_text_leaking(alloc, text),
    }
}
