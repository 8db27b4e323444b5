//! The bus guardians of a cluster.

ghost use Rattle.std.specs.Prelude.{◌≡◌, ◌≤◌, ◌↔◌, ◌%◌, ℕ, option_map, slice_get, length, IfOk, IsTrue, List, true};
ghost use Rattle.std.specs.Prelude.{◌&&◌, map};
ghost use Rattle.fr_slots.specs.Windows.{is_static};
ghost use Rattle.fr_guardian.specs.GuardianFields.{rows_on, IsRowAt, AreRows, IsPost, ArePosts};
ghost use Rattle.fr_guardian.specs.Guarding.{passes, PassesAlone, IsOpenTo, IsOpenMacrotick};
ghost use Rattle.fr_schedule.specs.Clusters.{IsCluster};
ghost use Rattle.fr_schedule.specs.Descriptions.{is_guarded};
ghost use Rattle.fr_schedule.specs.FileFaults.{all_owned};
ghost use Rattle.fr_slots.specs.Numbers.{cycle_count};
ghost use Rattle.fr_guardian.specs.Intervals.{AreMaximalIntervals, Span};
ghost use Rattle.fr_guardian.specs.Periods.{period};

use crate::intervals::{is_slot_within, open_intervals};
use fr_schedule::cluster::Cluster;
use fr_slots::channel::{Channel, Channels};
use fr_slots::numbers::{Cycle, NodeId};
use fr_slots::params::Params;
use fr_slots::plan::{NodePlan, Own};
use fr_slots::window::Window;
use std::alloc::{AllocError, Global};
use std::marker::Model;

/// The guardian of one node, with the node's plan and the open macroticks of each channel. They are kept for each cycle
/// below the node's period.
#[derive(Drop)]
struct Post {
    plan: NodePlan,
    a: Vec<Vec<(u32, u32)>>,
    b: Vec<Vec<(u32, u32)>>,
}

/// The bus guardians of a cluster, one for each node and channel. Chapter 5; that only static slots are guarded is
/// project-defined.
#[derive(Drop)]
pub struct Guardian {
    params: Params,
    guard: Option<Channels>,
    posts: Vec<Post>,
}

impl Model for Guardian {
    ghost use Rattle.fr_schedule.specs.Descriptions.{Description};

    ghost Value = { Description };

    ghost use Rattle.fr_guardian.specs.GuardianFields.{description_in, IsLawful};

    ghost view = { description_in };

    ghost invariant = { IsLawful };
}

impl Guardian {
    /// Returns the guardians of the cluster's nodes.
    ///
    /// Fails if the allocation of their open intervals fails.
    pub fn new(alloc: Global, cluster: &Cluster) -> Result<Guardian, AllocError>
        ensures { IfOk result (λ guardian. guardian ≡ cluster.now) }
    {
        let posts = posts_of(alloc, cluster)?;
        Ok(Guardian {
            params: *cluster.params(),
            guard: guard_of(cluster),
            posts,
        })
    }

    /// Returns the parameters of the cluster.
    pub fn params(&self) -> &Params
        ensures value { result.now ≡ self.now.params }
        ensures lawful { IsCluster self.now }
    {
        &self.params
    }

    /// Returns the number of nodes, 1 to 16.
    pub fn nodes(&self) -> u8
        ensures value { result ≡ length self.now.plans }
        ensures lawful { IsCluster self.now }
    {
        self.posts.len() as u8
    }

    /// Returns whether these are the guardians of the cluster: they have its parameters, its guarded channels, and the
    /// plans of its nodes in their order.
    pub fn is_of(&self, cluster: &Cluster) -> bool
        ensures { IsTrue result ↔ (self.now ≡ cluster.now) }
    {
        if !is_same_params(&self.params, cluster.params()) {
            return false;
        }
        if !is_same_guard(self.guard, guard_of(cluster)) {
            return false;
        }
        have_plans(self.posts.as_slice(), cluster.plans())
    }

    /// Returns the number of cycles after which the open macroticks of all nodes repeat. It is the greatest repetition
    /// of the ownership lines of the cluster, 1 to 64, or 1 if there are none (project-defined).
    pub fn cycles(&self) -> u8
        ensures value { result ≡ period (all_owned self.now.plans) }
        ensures some { 1 ≤ result }
        ensures few { result ≤ cycle_count }
        ensures again { (node cycle macrotick : ℕ) (channel : Channel)
            → IsOpenMacrotick self.now node (cycle % result) channel macrotick
            ↔ IsOpenMacrotick self.now node cycle channel macrotick }
    {
        cycles_of(self.posts.as_slice())
    }

    /// Returns whether a transmission of the node passes in the window on the channel (project-defined). In a static
    /// slot of a guarded channel only those of the slot's owner in the window's cycle pass; in a cycle without an owner
    /// none passes. Everywhere else all pass.
    ///
    /// Nothing passes if the window has no slot on the channel, or if the cluster doesn't have the node.
    pub fn passes(&self, node: NodeId, window: &Window, channel: Channel) -> bool
        ensures value { result ≡ passes self.now node window.now channel }
        ensures alone { result ≡ true → PassesAlone self.now node window.now channel }
    {
        let post = post_at(self.posts.as_slice(), node);
        let (Some(_), Some(slot)) = (post, window.slot(channel)) else {
            return false;
        };
        // A binary search finds the first macrotick of the slot in the node's open intervals of that cycle.
        !is_watched(self.guard, window, channel)
            || is_slot_within(
                &self.params,
                self.windows(node, window.cycle, channel),
                slot,
            )
    }

    /// Returns the macroticks of the cycle in which the channel is open to the node (project-defined). They are
    /// half-open intervals, from the first macrotick up to the one after the last, in order and as long as possible.
    /// They cover the dynamic segment, and of the static segment the slots that the node owns in this cycle. On a
    /// channel without guardians they cover the whole static segment.
    ///
    /// There are none for a node that the cluster doesn't have.
    pub fn windows(&self, node: NodeId, cycle: Cycle, channel: Channel) -> &[(u32, u32)]
        ensures found { AreMaximalIntervals (IsOpenMacrotick self.now node cycle channel) result.now }
        ensures only { (spans : List Span)
            → AreMaximalIntervals (IsOpenMacrotick self.now node cycle channel) spans
            → spans ≡ result.now }
    {
        match post_at(self.posts.as_slice(), node) {
            Some(post) => row_at(rows_on(post, channel), cycle),
            None => &[],
        }
    }
}

/// Returns the post of the node, if the cluster has the node.
fn post_at(posts: &[Post], node: NodeId) -> Option<&Post>
    ensures { option_map (λ post. post.now) result ≡ slice_get posts.now node }
{
    posts.get(usize::from(node.number()))
}

/// Returns the post's intervals on the channel, for each cycle below the node's period.
fn rows_on(post: &Post, channel: Channel) -> &[Vec<(u32, u32)>]
    ensures { result.now ≡ rows_on post.now channel }
{
    match channel {
        Channel::A => post.a.as_slice(),
        Channel::B => post.b.as_slice(),
    }
}

/// Returns the intervals of the cycle, which repeat after as many cycles as there are rows.
fn row_at(rows: &[Vec<(u32, u32)>], cycle: Cycle) -> &[(u32, u32)]
    requires { 1 ≤ length rows.now }
    ensures { IsRowAt rows.now cycle result.now }
{
    rows[usize::from(cycle.number()) % rows.len()].as_slice()
}

/// Returns the greatest repetition of the ownership lines, 1 to 64, or 1 if there are none.
fn period_of(owned: &[Own]) -> u8
    ensures value { result ≡ period owned.now }
    ensures few { result ≤ cycle_count }
{
    let mut most = 1;
    for own in owned {
        most = own.cycles.repetition().max(most);
    }
    most
}

/// Returns the greatest repetition of the ownership lines of all posts, or 1 if there are none.
fn cycles_of(posts: &[Post]) -> u8
    ensures value { result ≡ period (all_owned (map (λ post. post.plan) posts.now)) }
    ensures few { result ≤ cycle_count }
{
    let mut most = 1;
    for post in posts {
        most = period_of(post.plan.owned()).max(most);
    }
    most
}

/// Returns whether the channel is guarded.
fn is_guarded(guard: Option<Channels>, channel: Channel) -> bool
    ensures { result ≡ is_guarded guard channel }
{
    match guard {
        Some(channels) => channels.includes(channel),
        None => false,
    }
}

/// Returns whether the window is static and the channel is guarded.
fn is_watched(guard: Option<Channels>, window: &Window, channel: Channel) -> bool
    ensures { result ≡ (is_static window.now && is_guarded guard channel) }
{
    window.is_static() && is_guarded(guard, channel)
}

/// Returns the guarded channels of the cluster.
fn guard_of(cluster: &Cluster) -> Option<Channels>
    ensures { result ≡ cluster.now.guard }
{
    match (cluster.guarded(Channel::A), cluster.guarded(Channel::B)) {
        (true, true) => Some(Channels::Both),
        (true, false) => Some(Channels::A),
        (false, true) => Some(Channels::B),
        (false, false) => None,
    }
}

/// Returns whether the parameters are the same.
fn is_same_params(params: &Params, other: &Params) -> bool
    ensures { IsTrue result ↔ (params.now ≡ other.now) }
{
    params == other
}

/// Returns whether the guarded channels are the same.
fn is_same_guard(guard: Option<Channels>, other: Option<Channels>) -> bool
    ensures { IsTrue result ↔ (guard ≡ other) }
{
    guard == other
}

/// Returns whether the posts are those of nodes with these plans, in their order.
fn have_plans(posts: &[Post], plans: &[NodePlan]) -> bool
    ensures { IsTrue result ↔ (map (λ post. post.plan) posts.now ≡ plans.now) }
{
    if posts.len() != plans.len() {
        return false;
    }
    for index in 0..posts.len() {
        if !posts[index].plan.is_same(&plans[index]) {
            return false;
        }
    }
    true
}

/// Returns the posts of the cluster's nodes.
fn posts_of(alloc: Global, cluster: &Cluster) -> Result<Vec<Post>, AllocError>
    ensures { IfOk result (λ posts. ArePosts cluster.now posts.items) }
{
    let mut posts = Vec::new(alloc);
    for plan in cluster.plans() {
        posts.push(post_of(alloc, cluster, plan)?)?;
    }
    Ok(posts)
}

/// Returns the post of a node with this plan.
fn post_of(alloc: Global, cluster: &Cluster, plan: &NodePlan) -> Result<Post, AllocError>
    ensures post { IfOk result (λ post. IsPost cluster.now post) }
    ensures plan { IfOk result (λ post. post.plan ≡ plan.now) }
{
    let owned = plan.owned();
    let a = rows_of(alloc, cluster, owned, Channel::A)?;
    let b = rows_of(alloc, cluster, owned, Channel::B)?;
    Ok(Post {
        plan: plan.duplicate(),
        a,
        b,
    })
}

/// Returns the open intervals of a node with these ownership lines, for each cycle of its period.
fn rows_of(
    alloc: Global,
    cluster: &Cluster,
    owned: &[Own],
    channel: Channel,
) -> Result<Vec<Vec<(u32, u32)>>, AllocError>
    ensures { IfOk result
        (λ rows. AreRows cluster.now.params (is_guarded cluster.now.guard channel) owned.now channel rows.items) }
{
    let mut rows = Vec::new(alloc);
    // Only cycles that differ are kept: one if each line is for every cycle.
    for number in 0..period_of(owned) {
        let cycle = Cycle::from_bits(number);
        rows.push(intervals_in(alloc, cluster, owned, cycle, channel)?)?;
    }
    Ok(rows)
}

/// Returns the open intervals of a node with these ownership lines in the cycle.
fn intervals_in(
    alloc: Global,
    cluster: &Cluster,
    owned: &[Own],
    cycle: Cycle,
    channel: Channel,
) -> Result<Vec<(u32, u32)>, AllocError>
    ensures { IfOk result
        (λ intervals.
        AreMaximalIntervals
        (IsOpenTo cluster.now.params (is_guarded cluster.now.guard channel) owned.now cycle channel)
        intervals.items) }
{
    open_intervals(
        alloc,
        cluster.params(),
        cluster.guarded(channel),
        owned,
        cycle,
        channel,
    )
}
