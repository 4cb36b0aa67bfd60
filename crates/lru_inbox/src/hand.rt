//! What a token knows.
use std::collections::LinkedList;

/// The log of a shard: all that its mailbox accepted, in order. No value of it is made.
pub struct Log<E> {
    /// The number of the shard.
    pub shard: u64,
    /// What was taken from the mailbox.
    pub taken: LinkedList<E>,
    /// What was put after that.
    pub left: LinkedList<E>,
}

/// A beginning of the log of a shard. No value of it is made.
pub struct Front<E> {
    /// The number of the shard.
    pub shard: u64,
    /// What the log begins with.
    pub seen: LinkedList<E>,
}

/// What a token knows: the logs that it speaks for, of each shard one at most; what those who take had, of each shard one at
/// most too; and beginnings of logs. No value of it is made.
pub struct LogHand<E> {
    /// The logs.
    pub logs: LinkedList<Log<E>>,
    /// What was taken.
    pub takers: LinkedList<Front<E>>,
    /// What was seen.
    pub fronts: LinkedList<Front<E>>,
}
