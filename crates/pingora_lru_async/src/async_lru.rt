//! An order served by actors on threads; and what each message does to a shard, to the map of weights beside it, and to
//! the pairs that are evicted.

/// What a message did.
pub use lru_actors::effect::{Effect, Reply};
/// The rows of a shard.
pub use lru_actors::iter::ShardStateIter;
/// The number by which the row of a key is known.
pub use lru_actors::key::hash_key;
/// A message.
pub use lru_actors::message::LruMsg;
/// Messages processed with the map of weights and the queue of evicted pairs, and the choice of a victim.
pub use lru_actors::process::{choose_victim, process_batch, process_msg};
/// The shard of an actor.
pub use lru_actors::state::ShardState;
/// The order, the rows of a shard that it saves, and what it came to.
pub use lru_async::async_lru::{AsyncLru, Closed, ShardData};
/// How it is made.
pub use lru_async::builder::{AsyncLruBuilder, BuilderSettings};
/// One whose evicted pairs are counted.
pub use lru_async::ledger_lru::LedgerLru;
/// A receiver of its evicted pairs.
pub use lru_async::receiver::EvictionReceiver;
/// What a save did with the shards.
pub use lru_async::saving::SaveReport;
/// Why a message was not sent, and why nothing was built.
pub use lru_async::refusals::{BuildError, SendRefused};
/// Where evicted pairs go.
pub use lru_mailbox::{Dispatch, Putter};
/// Who calls an order with logs; and the law that an answer is exact where no message was refused.
pub use lru_inbox::{Caller, exact_law};
/// One whose whole history is accounted for once it is closed, how it is made, and what it came to.
pub use lru_async::{Account, AccountedLru, build_accounted};
/// What a shard came to, with its log.
pub use lru_workers::ShardEnd;
/// One that keeps logs.
pub use lru_async::logged_lru::LoggedLru;
/// What names the logs of an order, and a blank to build one from.
pub use lru_inbox::tie::{Archive, BlankLogs as LogBlank};
/// Messages on their way, with the cells for their replies.
pub use lru_actors::{Letter, ReplyCell};
/// The law over every schedule, and that a batch is so many of its events.
pub use lru_actors::{batch_law, schedule_law};
/// What is called with each evicted pair, and what actors call before each message.
pub use lru_workers::callback::{AsyncEvictionCallback, Gate, NoGate};
