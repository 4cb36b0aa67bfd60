//! What a message did.

/// What a message that asks is answered.
#[derive(Debug, Drop)]
pub enum Reply<K> {
    /// The weight of the shard.
    Weight(usize),
    /// A clone of the last row's key, and its weight; `None` where there is no row.
    Lru(Option<(K, usize)>),
    /// Clones of all keys with their weights, most recent first.
    Rows(Vec<(K, usize)>),
    /// There was no memory for the reply.
    Memory,
}

/// What a message did to its shard, and what is to be done outside of it.
#[derive(Debug, Drop)]
pub struct Effect<K> {
    /// The hash whose weight changed or is new, and that weight.
    pub put: Option<(u64, usize)>,
    /// The hash whose row left.
    pub cleared: Option<u64>,
    /// The shard's weight before the message.
    pub weight_before: usize,
    /// The shard's weight after it.
    pub weight_after: usize,
    /// How many rows the shard had.
    pub len_before: usize,
    /// How many rows the shard has.
    pub len_after: usize,
    /// The key and the weight that were evicted.
    pub evicted: Option<(K, usize)>,
    /// What the message is answered, if it asks.
    pub reply: Option<Reply<K>>,
    /// Whether the message was refused.
    pub refused: bool,
    /// Whether the limits are to be looked at.
    pub look: bool,
}
