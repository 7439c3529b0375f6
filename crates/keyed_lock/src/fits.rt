//! What may lie under a lock.

/// What a value under a lock has to do with the lock's key.
pub trait Fits<K> {
    /// Of a key and a value: the value fits the key.
    ghost fits: { K → Self → Type 0 };
}

/// A value that may not be let go of, but can be ended. A lock that is dropped ends the value that is under it by this.
pub trait Close {
    /// Ends the value.
    fn close(self);
}
