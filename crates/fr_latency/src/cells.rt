//! Cells of bits: one for each minislot from a first one on, with a bit for each cycle.

ghost use Rattle.std.specs.Prelude.{◌≡◌, ◌<◌, ◌≤◌, ◌+◌, length, slice_index};
ghost use Rattle.fr_slots.specs.Numbers.{cycle_count};
ghost use Rattle.fr_latency.specs.Cells.{has_bit, IsMask, IsAdded};
ghost use Rattle.fr_latency.specs.Openings.{greatest};

use fr_slots::filter::CycleFilter;
use fr_slots::numbers::{CYCLES, Cycle};

/// Returns whether the bit of the cycle is set.
pub(crate) fn has_bit(mask: u64, cycle: u8) -> bool
    requires { cycle < cycle_count }
    ensures { result ≡ has_bit mask cycle }
{
    mask >> cycle & 1 == 1
}

/// Returns a mask with the bits of these cycles.
pub(crate) fn mask_of(cycles: CycleFilter) -> u64
    ensures { IsMask cycles result }
{
    let mut mask = 0;
    for number in 0..CYCLES {
        if cycles.admits(Cycle::from_bits(number)) {
            mask |= 1 << number;
        }
    }
    mask
}

/// Adds so many cells of `from`, under the mask, to `cells`, from a place on.
pub(crate) fn add(cells: &mut [u64], from: &[u64], shift: usize, count: usize, mask: u64)
    requires within { shift + count ≤ length cells.old }
    requires few { count ≤ length from.now }
    ensures { IsAdded from.now shift count mask cells.old cells.new }
{
    for index in 0..count {
        cells[index + shift] |= from[index] & mask;
    }
}

/// Returns the greatest place up to this one whose cell has the bit of the cycle, or 0.
pub(crate) fn greatest(cells: &[u64], cycle: u8, most: usize) -> usize
    requires within { most < length cells.now }
    requires cycle { cycle < cycle_count }
    ensures value { result ≡ greatest (λ index. has_bit (slice_index cells.now index) cycle) most }
    ensures few { result ≤ most }
{
    let mut place = most;
    while place > 0 && !has_bit(cells[place], cycle) {
        place -= 1;
    }
    place
}
