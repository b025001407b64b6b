//! The front of a slice.

ghost use Rattle.std.specs.Prelude.{◌≡◌, length, min, take};

/// Copies the front of `from` into the front of `to`, as much as both have, and says how much.
pub(crate) fn copy_front<T: Copy>(from: &[T], to: &mut [T]) -> usize
    ensures count { result ≡ min (length from.now) (length to.new) }
    ensures front { take result to.new ≡ take result from.now }
{
    let count = from.len().min(to.len());
    to[..count].copy_from_slice(&from[..count]);
    count
}
