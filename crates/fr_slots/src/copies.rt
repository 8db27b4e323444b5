//! Copies into arrays of a fixed capacity.

ghost use Rattle.std.specs.Prelude.{◌≡◌, ◌≤◌, length};

use arrayvec::ArrayVec;

/// Returns a copy of the items in an array that has room for them.
pub fn array_of<T: Copy + Default + Drop, const N: usize>(items: &[T]) -> ArrayVec<T, N>
    requires { length items.now ≤ N }
    ensures { result.items ≡ items.now }
{
    let mut kept = ArrayVec::new();
    let outcome = kept.try_extend_from_slice(items);
    let fits = outcome.is_ok();
    prove!(fits);
    kept
}
