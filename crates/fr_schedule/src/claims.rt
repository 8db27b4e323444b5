//! The claims of the nodes of a cluster: the slots that they own, and the slots in which they send.

ghost use Rattle.std.specs.Prelude.{◌≡◌, ◌≤◌, ◌++◌, length, map, IfOk, OnOk};
ghost use Rattle.fr_schedule.specs.Claims.{claim_of, claims_from, filters_by};

use arrayvec::ArrayVec;
use fr_slots::fault::{own_filters, transmit_filters};
use fr_slots::filter::Filter;
use fr_slots::numbers::NodeId;
use fr_slots::plan::{LINES, NodePlan};
use std::alloc::{AllocError, Global};

/// A node's claim to the occasions of a filter.
#[derive(Clone, Copy)]
pub(crate) struct Claim {
    pub(crate) filter: Filter,
    pub(crate) node: NodeId,
}

/// Lines of a plan that claim occasions.
#[derive(Clone, Copy, PartialEq, Eq)]
pub(crate) enum Lines {
    /// The ownership lines, each in its cycles.
    Owned,
    /// The transmit buffers.
    Transmitting,
}

/// Returns the filters of these lines, of which a plan has at most 64.
fn filters_by(lines: Lines, plan: &NodePlan) -> ArrayVec<Filter, LINES>
    ensures { result.items ≡ filters_by lines plan.now }
{
    match lines {
        Lines::Owned => own_filters(plan.owned()),
        Lines::Transmitting => transmit_filters(plan.buffers()),
    }
}

/// Appends the node's claims to the occasions of these filters.
fn add_claims(claims: &mut Vec<Claim>, node: NodeId, filters: &[Filter]) -> Result<(), AllocError>
    ensures { OnOk result (claims.new.items ≡ claims.old.items ++ map (claim_of node) filters.now) }
{
    for filter in filters {
        claims.push(Claim {
            filter: *filter,
            node,
        })?;
    }
    Ok(())
}

/// Returns the claims that these lines of all nodes make, in the order of nodes.
pub(crate) fn claims_of(
    alloc: Global,
    lines: Lines,
    plans: &[NodePlan],
) -> Result<Vec<Claim>, AllocError>
    requires { length plans.now ≤ 16 }
    ensures { IfOk result (λ claims. claims.items ≡ claims_from (filters_by lines) 0 plans.now) }
{
    let mut claims = Vec::new(alloc);
    for (number, plan) in plans.iter().enumerate() {
        let filters = filters_by(lines, plan);
        add_claims(
            &mut claims,
            NodeId::from_number(number as u8),
            filters.as_slice(),
        )?;
    }
    Ok(claims)
}
