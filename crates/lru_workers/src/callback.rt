//! What users hand in: a callback for evicted pairs, and a gate.

/// What is called with each evicted pair.
pub trait AsyncEvictionCallback<K>: Send + Sync + 'static {
    // it may be called with everything
    ghost ready: { Self → Type 0 };

    /// A pair of a key and its weight was evicted.
    fn call(&self, key: K, weight: usize)
        requires { ready self.now };
}

impl<K, F: Fn(K, usize) + Send + Sync + 'static> AsyncEvictionCallback<K> for F {
    ghost ready = { λ f. F.IsAlwaysCallable f };

    fn call(&self, key: K, weight: usize) {
        self(key, weight)
    }
}

/// What an actor calls before each message, with the number of its shard. It may hold the actor up.
pub trait Gate: Send + Sync + 'static {
    /// A message of this shard is to be processed.
    fn pass(&self, shard: usize);
}

/// A gate that does nothing.
#[derive(Clone, Copy, Debug, Drop)]
pub struct NoGate;

impl Gate for NoGate {
    fn pass(&self, _shard: usize) {}
}
