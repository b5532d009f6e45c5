//! What a function does with a value that it doesn't own.

/// Lends the value, and lets it go. Who passes a large value on at once has little to follow from point to point.
pub fn lend<T: Drop, R, F: FnOnce(&T) -> R>(value: T, f: F) -> R
    requires { F.IsAlwaysCallable f }
{
    f(&value)
}
