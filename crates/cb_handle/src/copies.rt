//! Copies into a caller's memory.

ghost use Rattle.std.specs.Prelude.{◌≡◌, ◌+◌, ◌≤◌, ◌++◌, length, take, drop};
ghost use Rattle.cb_handle.specs.Copies.{copied};

/// Copies over the first places, as far as they fit.
pub fn copy_front<T: Copy>(to: &mut [T], from: &[T])
    ensures copied { to.new ≡ copied from.now to.old }
    ensures len { length to.new ≡ length to.old }
{
    if from.len() < to.len() {
        to[..from.len()].copy_from_slice(from);
    } else {
        to.copy_from_slice(&from[..to.len()]);
    }
}

/// Copies over the places from one on, where all of it fits, and tells the place behind it.
pub fn copy_at<T: Copy>(to: &mut [T], place: usize, from: &[T]) -> usize
    requires { place + length from.now ≤ length to.old }
    ensures copied { to.new ≡ take place to.old ++ from.now
        ++ drop (place + length from.now) to.old }
    ensures len { length to.new ≡ length to.old }
    ensures end { result ≡ place + length from.now }
{
    let end = place + from.len();
    to[place..end].copy_from_slice(from);
    end
}

/// The items from this one on, as far as there are.
pub fn from<T>(items: &[T], first: usize) -> &[T]
    ensures { result.now ≡ drop first items.now }
{
    let first = first.min(items.len());
    &items[first..]
}
