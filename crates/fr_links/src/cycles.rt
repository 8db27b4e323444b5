//! The cycles that two filters have in common.

ghost use Rattle.std.specs.Prelude.{◌≡◌, ◌<◌, ◌&&◌, false, IfNone, IfSome, ℕ};
ghost use Rattle.fr_slots.specs.Admission.{cycle_admitted};
ghost use Rattle.fr_slots.specs.Numbers.{cycle_count};
ghost use Rattle.fr_links.specs.Cycles.{AreShared, shared};

use fr_slots::filter::CycleFilter;

/// Returns the filter of the cycles that both filters admit, or `None` if there is no such cycle.
///
/// If two filters have a cycle in common, the one with the greater repetition admits no further cycles.
pub fn shared(one: &CycleFilter, other: &CycleFilter) -> Option<CycleFilter>
    ensures value { result ≡ shared one.now other.now }
    ensures both { IfSome result (AreShared one.now other.now) }
    ensures none { IfNone result ((cycle : ℕ) → cycle < cycle_count
        → (cycle_admitted one.now cycle && cycle_admitted other.now cycle) ≡ false) }
{
    let Some(_) = one.first_common(other) else {
        return None;
    };
    if one.repetition() < other.repetition() {
        Some(*other)
    } else {
        Some(*one)
    }
}
