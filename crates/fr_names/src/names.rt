//! The names of a cluster's nodes and of their buffers.

ghost use Rattle.std.specs.Prelude.{◌≡◌, ◌<◌, length, map, IfOk, IfSome, count_by, position};
ghost use Rattle.fr_names.specs.FileNames.{names_of_node, names_in, IsTableIn};
ghost use Rattle.fr_names.specs.Names.{is_called, is_node_called, only_place};
ghost use Rattle.fr_slots.specs.Numbers.{most_lines};
ghost use Rattle.toml.specs.View.{view, table_view};

use crate::name::{Name, is_called};
use crate::table::{buffers_in, first_values_at, name_of, names_of_buffers};
use fr_slots::numbers::{NODES, NodeId};
use std::alloc::{AllocError, Global};
use std::marker::Model;
use std::mem;
use toml::{Table, Value};

/// The greatest number of nodes of a cluster (project-defined).
const MOST_NODES: usize = NODES as usize;

/// The name of a node, and those of its buffers, at most 64, in the order of their numbers.
#[derive(Drop)]
struct NodeNames {
    name: Option<Name>,
    buffers: Vec<Option<Name>>,
}

impl Model for NodeNames {
    ghost use Rattle.std.specs.Prelude.{◌≤◌, length};
    ghost use Rattle.fr_names.specs.Names.{NamesOfNode};
    ghost use Rattle.fr_slots.specs.Numbers.{most_lines};

    ghost Value = { NamesOfNode };

    ghost view = { λ node. record { name = node.name; buffers = node.buffers.items } };

    ghost invariant = { λ node. length node.buffers.items ≤ most_lines };
}

/// The names of a cluster's nodes and of their buffers (project-defined). A name is 1 to 32 ASCII letters, digits, `_`,
/// `-` and `.`.
#[derive(Drop)]
pub struct Names {
    nodes: Vec<NodeNames>,
}

impl Model for Names {
    ghost use Rattle.std.specs.Prelude.{◌≤◌, List, length};
    ghost use Rattle.fr_names.specs.Names.{NamesOfNode};
    ghost use Rattle.fr_schedule.specs.Clusters.{most_nodes};

    ghost Value = { List NamesOfNode };

    ghost view = { λ names. names.nodes.items };

    ghost invariant = { λ names. length names.nodes.items ≤ most_nodes };
}

/// Returns the names in a node's value.
#[tactic(auto, unfolding(crate::specs::FileNames::names_of_node))]
fn names_of_node(alloc: Global, value: &Value) -> Result<NodeNames, AllocError>
    ensures { IfOk result (λ node. node ≡ names_of_node (view value.now)) }
{
    let name = name_of(alloc, value)?;
    let values = buffers_in(value);
    let buffers = names_of_buffers(alloc, values)?;
    Ok(NodeNames { name, buffers })
}

/// Returns the names in the values of nodes.
fn names_of_nodes(alloc: Global, values: &[Value]) -> Result<Vec<NodeNames>, AllocError>
    ensures names { IfOk result (λ nodes. nodes.items ≡ map names_of_node (map view values.now)) }
    ensures len { IfOk result (λ nodes. length nodes.items ≡ length values.now) }
{
    let mut nodes = Vec::new(alloc);
    for value in values {
        let node = names_of_node(alloc, value)?;
        nodes.push(node)?;
    }
    Ok(nodes)
}

/// Returns the names in the table of a cluster file.
#[tactic(auto, unfolding(crate::specs::FileNames::names_in))]
fn names_in(alloc: Global, root: &Table) -> Result<Names, AllocError>
    ensures { IfOk result (λ names. names ≡ names_in (table_view root.now)) }
{
    let values = first_values_at(root, "node", MOST_NODES);
    let nodes = names_of_nodes(alloc, values)?;
    Ok(Names { nodes })
}

/// Returns the table of a cluster file, or none if the text isn't TOML.
fn table_in(alloc: Global, text: &str) -> Result<Option<Table>, AllocError>
    ensures { IfOk result (IsTableIn text.now) }
{
    match toml::table_from_str(alloc, text) {
        Ok(table) => Ok(Some(table)),
        Err(error) if error.is_memory() => Err(AllocError),
        Err(_) => Ok(None),
    }
}

/// Returns the number of names that have these bytes.
fn count_of(names: &[Option<Name>], word: &[u8]) -> usize
    ensures { result ≡ count_by (is_called word.now) names.now }
{
    names.iter().filter(|name| is_called(name, word)).count()
}

/// Returns the place of the first name that has these bytes.
fn place_of(names: &[Option<Name>], word: &[u8]) -> Option<usize>
    ensures place { result ≡ position (is_called word.now) names.now }
    ensures within { IfSome result (λ place. place < length names.now) }
{
    names.iter().position(|name| is_called(name, word))
}

/// Returns the place of the only name that has these bytes.
fn only_name(names: &[Option<Name>], word: &[u8]) -> Option<usize>
    ensures place { result ≡ only_place (is_called word.now) names.now }
    ensures within { IfSome result (λ place. place < length names.now) }
{
    if count_of(names, word) == 1 {
        place_of(names, word)
    } else {
        None
    }
}

/// Returns whether the node has a name, with these bytes.
fn is_node_called(node: &NodeNames, word: &[u8]) -> bool
    ensures { result ≡ is_node_called word.now node.now }
{
    is_called(&node.name, word)
}

/// Returns the number of nodes whose names have these bytes.
fn count_of_nodes(nodes: &[NodeNames], word: &[u8]) -> usize
    ensures { result ≡ count_by (is_node_called word.now) nodes.now }
{
    nodes
        .iter()
        .filter(|node| is_node_called(node, word))
        .count()
}

/// Returns the place of the first node whose name has these bytes.
fn place_of_node(nodes: &[NodeNames], word: &[u8]) -> Option<usize>
    ensures place { result ≡ position (is_node_called word.now) nodes.now }
    ensures within { IfSome result (λ place. place < length nodes.now) }
{
    nodes.iter().position(|node| is_node_called(node, word))
}

/// Returns the place of the only node whose name has these bytes.
fn only_node(nodes: &[NodeNames], word: &[u8]) -> Option<usize>
    ensures place { result ≡ only_place (is_node_called word.now) nodes.now }
    ensures within { IfSome result (λ place. place < length nodes.now) }
{
    if count_of_nodes(nodes, word) == 1 {
        place_of_node(nodes, word)
    } else {
        None
    }
}

/// Returns the number of the only buffer of the node whose name has these bytes.
fn buffer_of(node: &NodeNames, word: &[u8]) -> Option<u8>
    ensures buffer { result ≡ only_place (is_called word.now) node.now.buffers }
    ensures within { IfSome result (λ buffer. buffer < most_lines) }
{
    match only_name(node.buffers.as_slice(), word) {
        Some(place) => Some(place as u8),
        None => None,
    }
}

impl Names {
    ghost use Rattle.std.specs.Prelude.{◌≡◌, ◌<◌, [], IfOk, IfSome};
    ghost use Rattle.fr_names.specs.FileNames.{names_of};
    ghost use Rattle.fr_names.specs.Names.{node_named, buffer_named};
    ghost use Rattle.fr_slots.specs.Numbers.{most_lines};

    /// Returns the names of a cluster whose nodes and buffers have none (project-defined).
    pub fn none(alloc: Global) -> Names
        ensures { result ≡ [] }
    {
        Names {
            nodes: Vec::new(alloc),
        }
    }

    /// Returns the names that a cluster file gives (project-defined). These are the strings under the keys `name` of
    /// its nodes and of their buffers that have the form of a name.
    ///
    /// Nodes and buffers are counted from 0 in the order of the file. Only the first 16 nodes and the first 64 buffers
    /// of each have names. A text that isn't TOML gives no names. This function reports no fault of the file.
    ///
    /// Fails if an allocation fails. The clause doesn't exclude the error for other causes while the text is parsed,
    /// since `toml` states nothing of a text for which memory ran out.
    pub fn from_text(alloc: Global, text: &str) -> Result<Names, AllocError>
        ensures { IfOk result (λ names. names ≡ names_of text.now) }
    {
        match table_in(alloc, text)? {
            Some(root) => names_in(alloc, &root),
            None => Ok(Names::none(alloc)),
        }
    }

    /// Returns the same names, for a program that reads one cluster file and ends (project-defined). The parsed table
    /// isn't freed, since freeing it takes a tenth of the time of reading it.
    pub fn from_text_leaking(alloc: Global, text: &str) -> Result<Names, AllocError>
        ensures { IfOk result (λ names. names ≡ names_of text.now) }
    {
        match table_in(alloc, text)? {
            Some(root) => {
                let names = names_in(alloc, &root);
                mem::forget(root);
                names
            }
            None => Ok(Names::none(alloc)),
        }
    }

    /// Returns the names in the table of a cluster file (project-defined). Fails if an allocation fails.
    pub fn from_table(alloc: Global, root: &Table) -> Result<Names, AllocError>
        ensures { IfOk result (λ names. names ≡ names_in (table_view root.now)) }
    {
        names_in(alloc, root)
    }

    /// Returns the node that has this name, or `None` if no node or more than one has it (project-defined).
    pub fn node(&self, name: &[u8]) -> Option<NodeId>
        ensures { result ≡ node_named self.now name.now }
    {
        match only_node(self.nodes.as_slice(), name) {
            Some(place) => Some(NodeId::from_number(place as u8)),
            None => None,
        }
    }

    /// Returns the number of the node's buffer that has this name, 0 to 63 (project-defined).
    ///
    /// It is `None` if no buffer of the node or more than one has the name, and if the cluster doesn't have the node.
    /// Names of other nodes' buffers don't count.
    pub fn buffer(&self, node: NodeId, name: &[u8]) -> Option<u8>
        ensures buffer { result ≡ buffer_named self.now node name.now }
        ensures within { IfSome result (λ buffer. buffer < most_lines) }
    {
        match self.nodes.get(usize::from(node.number())) {
            Some(names) => buffer_of(names, name),
            None => None,
        }
    }
}
