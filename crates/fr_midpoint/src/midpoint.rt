//! The midpoint of values, which are sorted.

ghost use Rattle.std.specs.Prelude.{◌≡◌, ◌≤◌, ◌↔◌, IfOk, IfSome, IsNone, IsSome, length, All, false, pos, ◌+ℤ◌};
ghost use Rattle.std.specs.Prelude.{int_div};
ghost use Rattle.std.specs.List.{list_any};
ghost use Rattle.std.specs.List.Sorted.{IsPermutation, IsSorted};
ghost use Rattle.std.specs.Ordering.{int_cmp};
ghost use Rattle.std.specs.Result.{result_err};
ghost use Rattle.fr_midpoint.specs.declared.ranks.Midpoint.{Midpoint};
ghost use Rattle.fr_midpoint.specs.Midpoint.{dropped, IsMidpoint};
ghost use Rattle.fr_midpoint.specs.Refusals.{refusal, is_large};
ghost use Rattle.fr_midpoint.specs.Selection.{middle_of};

use crate::ranks::{GREATEST, Midpoint, MidpointError, VALUES};
use arrayvec::ArrayVec;

/// Returns the fault-tolerant midpoint of values (chapter 8), or none of no values (project-defined).
///
/// Of up to 2 values none is dropped, of 3 to 7 the least and the greatest, and of 8 and more the two least and the two
/// greatest. The midpoint is half the sum of the least and the greatest of the rest. Half of an odd sum is truncated
/// toward zero (project-defined).
///
/// Fails with `TooMany` for more than 15 values, then with `TooLarge` for a value more than 1,000,000 from 0. It
/// allocates no memory.
pub fn midpoint(values: &[i32]) -> Result<Option<Midpoint>, MidpointError>
    ensures refusal { result_err result ≡ refusal values.now }
    ensures none { IfOk result (λ answer. IsNone answer ↔ (length values.now ≡ 0)) }
    ensures found { IfOk result (λ answer. IfSome answer (λ m. IsMidpoint values.now m)) }
    ensures only { (m : Midpoint) → IsMidpoint values.now m
        → IfOk result (λ answer. answer ≡ Some m) }
{
    // Values are counted before they are tested, since `TooLarge` comes after `TooMany`.
    let Some(ascending) = ascending(values) else {
        return Err(MidpointError::TooMany);
    };
    if any_large(values) {
        return Err(MidpointError::TooLarge);
    }
    Ok(middle_of(ascending.as_slice()))
}

/// Returns the values in ascending order, or none for more than 15.
fn ascending(values: &[i32]) -> Option<ArrayVec<i32, VALUES>>
    ensures room { IsSome result ↔ (length values.now ≤ 15) }
    ensures moved { IfSome result (λ kept. IsPermutation values.now kept.items) }
    ensures sorted { IfSome result (λ kept. IsSorted int_cmp kept.items) }
{
    let mut kept = ArrayVec::<i32, VALUES>::new();
    kept.try_extend_from_slice(values).ok()?;
    kept.sort_unstable();
    Some(kept)
}

/// Returns whether a value is more than 1,000,000 from 0.
fn any_large(values: &[i32]) -> bool
    ensures { result ≡ list_any is_large values.now }
{
    values.iter().any(|value| value.unsigned_abs() > GREATEST)
}

/// Returns the number of values that are dropped at either end, of so many.
fn count_dropped(count: usize) -> usize
    ensures { result ≡ dropped count }
{
    match count {
        0..=2 => 0,
        3..=7 => 1,
        _ => 2,
    }
}

/// Returns half the sum of two values, truncated toward zero.
fn half_sum(low: i32, high: i32) -> i32
    requires low_near { is_large low ≡ false }
    requires high_near { is_large high ≡ false }
    ensures { result ≡ int_div (low +ℤ high) (pos 2) }
{
    (low + high) / 2
}

/// Returns the midpoint of ascending values.
fn middle_of(ascending: &[i32]) -> Option<Midpoint>
    requires few { length ascending.now ≤ 15 }
    requires near { All (λ value. is_large value ≡ false) ascending.now }
    ensures { result ≡ middle_of ascending.now }
{
    let count = ascending.len();
    if count == 0 {
        return None;
    }
    let dropped = count_dropped(count);
    let low = ascending[dropped];
    let high = ascending[count - 1 - dropped];
    Some(Midpoint {
        value: half_sum(low, high),
        low_rank: dropped as u8 + 1,
        high_rank: (count - dropped) as u8,
    })
}
